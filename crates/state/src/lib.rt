// The engine's state, what makes it well formed, its registers' bits and interrupt line, a descriptor's layout, and a transfer on
// its way.
#![tactic(auto)]

pub mod bits;
pub mod descriptor;
pub mod engine;
pub mod moving;
