// RULES.md, "Descriptor and steps": one step and a run of steps, with their refusals.
#![tactic(auto)]

pub mod run;
pub mod walk;
