// RULES.md, "Trace and listing": the next record of a trace.
#![tactic(auto)]

pub mod records;
