// The lines of an ST: one a step, then `stop`.
#![tactic(auto)]

pub mod lines;
mod stepping;
