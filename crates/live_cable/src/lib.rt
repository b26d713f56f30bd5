// The machine end on a real cable: the machines that a command line names, and what they answer.
#![tactic(auto)]

pub mod arguments;
pub mod fault;
pub mod machines;
