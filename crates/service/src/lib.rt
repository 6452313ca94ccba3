#![tactic(auto)]
// What serving means: a call to the server, a stream of calls, the lines of a file, and the claim about lists and streams. Definitions in specs/ and
// laws in proofs/. There is no code.
