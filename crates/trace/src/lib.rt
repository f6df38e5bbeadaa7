// RULES.md, "Trace and listing": a pass over a part of a trace.
#![tactic(auto)]

pub mod pass;
