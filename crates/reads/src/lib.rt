// RULES.md, "Registers": reading the registers of the engine.
#![tactic(auto)]

pub mod read;
