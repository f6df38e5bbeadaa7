// RULES.md, "Trace and listing": what the records do and print that are a turn by themselves.
#![tactic(auto)]

pub mod effect;
