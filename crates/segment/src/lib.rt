// Drops: the machines that hang on a cable, one or several.
#![tactic(auto)]

pub mod joined;
pub mod segment;
