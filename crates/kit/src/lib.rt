// What every layer uses: RULES.md's numbered answers, limits and settings, and little-endian words.
#![tactic(auto)]

pub mod answer;
pub mod limits;
pub mod logic;
pub mod settings;
pub mod word;
