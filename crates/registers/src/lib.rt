// RULES.md, "Registers": writing the registers of the engine.
#![tactic(auto)]

pub mod write;
