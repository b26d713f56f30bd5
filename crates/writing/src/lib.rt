// Every reply and every command, as it is written.
#![tactic(auto)]

pub mod answer;
mod draft;
pub mod request;
