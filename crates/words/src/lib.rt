// include/belikumba.h: an engine as the numbers that a caller in C keeps.
#![tactic(auto)]

pub mod engine_words;
