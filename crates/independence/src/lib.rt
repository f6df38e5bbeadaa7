// Two engines on one memory: specs/Footprint.antt says which bytes a step reads and writes, and specs/Independence.antt that
// engines whose bytes do not meet do, in any order, what each does alone. proofs/ proves it. No code of its own.
#![tactic(auto)]
