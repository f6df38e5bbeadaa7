// RULES.md, "Descriptor and steps", move: bursts of a transfer, moved without the rest of the engine's state at hand.
#![tactic(auto)]

pub mod glide;
pub mod move_on;
