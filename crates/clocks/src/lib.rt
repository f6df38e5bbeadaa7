// include/belikumba.h: a monitor as the numbers that a caller in C keeps, and a clock as it hands one over.
#![tactic(auto)]

pub mod monitor_words;
