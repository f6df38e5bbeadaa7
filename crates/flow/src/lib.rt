// The bytes of a trace on their way into a replay: what is pending, and one read more.
#![tactic(auto)]

pub mod flow;
pub mod input;
