// Replies: reading a burst that travels up, against the question that is open.
#![tactic(auto)]

pub mod hearing;
pub mod machines;
mod read;
pub mod reply;
