// RULES.md, "Memory that answers badly": sick windows, the verdict of a group of bytes, and the copy of a burst.
#![tactic(auto)]

pub mod burst;
pub mod good;
pub mod verdict;
pub mod window;
