// RULES.md, "Bus clocks": the monitor of the read-address bus, one clock at a time.
#![tactic(auto)]

mod burst;
pub mod clock;
mod flags;
pub mod monitor;
mod rules;
