// A blender or feeder: what a machine of any kind answers, and how its totals grow.
#![tactic(auto)]

pub mod machine;
mod modelled;
pub mod settings;
mod tally;
