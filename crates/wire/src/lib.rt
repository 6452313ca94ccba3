#![tactic(auto)]
// What the formats of the protocol are: definitions in specs/ and laws in proofs/, which the crates of readers and writers cite. There is no code.
