// The traces of older boards, which relied on bursts of 16 beats: specs/ defines how they were listed, and states how they
// are listed once converted; proofs/ proves it. No code of its own.
#![tactic(auto)]
