// RULES.md, "Trace and listing": the listing's lines, put as bytes into a lent buffer.
#![tactic(auto)]

pub mod line;
pub mod word;
