// RULES.md, "Memory that answers badly": where a group of bytes failed, and the window that holds that byte.
#![tactic(auto)]

pub mod fault;
pub mod group;
pub mod locate;
