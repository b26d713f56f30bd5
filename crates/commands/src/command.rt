use mlan::frame::Part;
use terms::{Function, Sheet, Tag, WeightUnits};

// A command as it was read. Rows and letters are parts of the burst.
#[derive(Clone, Copy, Debug, PartialEq, Eq)]
pub enum Command<'a> {
    // `reset` is code 16, which lowers the mark and the flags; code 17 only reads.
    GetTotals { reset: bool },
    SetSettings(Sheet<Part<'a>>),
    GetSettings,
    GetType,
    SetFunction { function: Function, value: u8 },
    GetFunctions,
    GetVersion,
    GetUnits,
    SetUnits { units: WeightUnits },
    SetKeypad { flag: bool },
    SetTag { letters: Part<'a>, tag: Tag },
}
