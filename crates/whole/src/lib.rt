// The listing of a whole trace: specs/Listing.antt defines it, and states that a replay part by part gives it;
// proofs/ proves it. No code of its own.
#![tactic(auto)]
