// Demand 3 for transfers: specs/Transfers.antt states what every transfer of the engine keeps to, whatever register
// accesses come between its steps, and specs/KeyHole.antt what one with a fixed side does. specs/Events.antt and
// specs/Joined.antt state what the events of a run are, and that runs one after the other are one. proofs/ proves it. No code
// of its own.
#![tactic(auto)]
