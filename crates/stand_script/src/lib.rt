// The script of a test stand: what a line asks for.
#![tactic(auto)]

pub mod action;
pub mod read;
