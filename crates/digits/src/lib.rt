// RULES.md, "Trace and listing": numbers in decimal, put as bytes into a lent buffer.
#![tactic(auto)]

pub mod decimal;
pub mod tables;
