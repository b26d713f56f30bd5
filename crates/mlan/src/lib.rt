// MLAN bursts: the checksum, the frame, bursts that are kept, and the faults of a command.
#![tactic(auto)]

pub mod burst;
pub mod checksum;
pub mod fault;
pub mod frame;
