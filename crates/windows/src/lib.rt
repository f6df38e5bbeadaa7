// RULES.md, "Memory that answers badly": a step, a run and a look-up over a lent slice of windows. The covered core
// takes flat numbers; here the windows are copied into them once.
#![tactic(auto)]

pub mod entries;
pub mod lookup;
mod table;
