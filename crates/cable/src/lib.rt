// Lines: what carries bursts between a station and the machines on its cable.
#![tactic(auto)]

pub mod buffer;
pub mod carrier;
pub mod line;
pub mod pair;
mod queue;
pub mod store;
pub mod two_way;

// The two ways of a line: down to the machines, and up to the station.
#[derive(Clone, Copy, Debug, PartialEq, Eq)]
pub enum Way {
    Down,
    Up,
}
