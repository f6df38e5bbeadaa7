// RULES.md, "Descriptor and steps", key hole: the bytes of a burst whose source or destination is fixed at one word, or neither.
#![tactic(auto)]

mod answer;
pub mod burst;
pub mod carry;
pub mod side;
mod word;
