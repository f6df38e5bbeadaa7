// What the crate claims says of runs, as callers have it: over the words that a caller in C keeps, and in the lines of an ST.
// No code of its own.
#![tactic(auto)]
