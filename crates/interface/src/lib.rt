// What each function of include/belikumba.h does, for a host program that keeps its engine and its monitor as numbers: the crate
// interface_c exports them under these names.
#![tactic(auto)]

pub mod accesses;
pub mod bus;
pub mod judging;
mod moving;
pub mod planning;
pub mod stepping;
