use mlan::frame::Part;
use terms::{Counts, Sheet, Software, Unit, WeightUnits};

// A question as far as its reply depends on it: the machine's address and the command's code.
// The code is any number, since a reply is judged against each; a narrower type would ask more
// of callers.
#[derive(Clone, Copy, Debug, PartialEq, Eq)]
pub struct Asked {
    pub address: u8,
    pub code: u8,
}

// A reply as it was read. Rows and version are parts of the burst. It is not writing's `Answer`
// at other rows: that also has NAK, and what it holds may be out of range.
#[derive(Clone, Copy, Debug, PartialEq, Eq)]
pub enum Reply<'a> {
    Ack,
    // `reset` is code 16, code 17 only reads.
    Totals {
        reset: bool,
        unit: Unit,
        software: Software,
        counts: Counts,
    },
    Settings {
        unit: Unit,
        mark: bool,
        software: Software,
        sheet: Sheet<Part<'a>>,
    },
    SystemType {
        unit: Unit,
        software: Software,
    },
    Functions {
        f130: u8,
        f82: u8,
    },
    Version {
        characters: Part<'a>,
    },
    DisplayUnits {
        units: WeightUnits,
    },
}
