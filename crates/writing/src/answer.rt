ghost use Rattle.std.specs.Prelude.{◌≡◌, ◌+◌, ◌≤◌, ◌++◌, length};
ghost use Rattle.writing.specs.Answers.{answer_code, answer_data, answer_bytes};

use super::draft::Draft;
use mlan::burst::Burst;
use terms::{Counts, Function, Row, Sheet, Unit, WeightUnits};

// What a machine replies to a command. Its software type is a number: an enum would ask more
// of who writes an answer. So unit and software are no struct either, which a `Reply`, with
// `Software` in it, could not share.
#[derive(Clone, Copy, Debug, PartialEq, Eq)]
pub enum Answer {
    // Done, to a command that sets something.
    Ack,
    // Refused, to any command.
    Nak,
    // `reset` is code 16, which lowers the mark and the flags; code 17 only reads.
    Totals {
        reset: bool,
        unit: Unit,
        software: u8,
        counts: Counts,
    },
    Settings {
        unit: Unit,
        mark: bool,
        software: u8,
        sheet: Sheet<[Row; 12]>,
    },
    SystemType {
        unit: Unit,
        software: u8,
    },
    // two bytes, as in a machine's settings, where each is set by itself
    Functions {
        f130: u8,
        f82: u8,
    },
    Version {
        characters: [u8; 6],
    },
    DisplayUnits {
        units: WeightUnits,
    },
}

impl Answer {
    fn code(&self) -> u8
        ensures { result ≡ answer_code self.now }
    {
        match self {
            Answer::Ack | Answer::Nak => 48,
            Answer::Totals { reset: true, .. } => 16,
            Answer::Totals { .. } => 17,
            Answer::Settings { .. } => 20,
            Answer::SystemType { .. } => 49,
            Answer::Functions { .. } => 71,
            Answer::Version { .. } => 80,
            Answer::DisplayUnits { .. } => 85,
        }
    }

    // The burst of the reply of the machine with this address. A request makes its own by the
    // same four lines; a trait of what has a code and data would be longer than both.
    pub fn burst(&self, address: u8) -> Burst
        ensures bytes { result ≡ answer_bytes address self.now }
        ensures fits { (1 ≤ length result) × (length result ≤ 64) }
    {
        let mut draft = Draft::new();
        draft.append(&[address, self.code()]);
        self.put_data(&mut draft);
        draft.seal()
    }

    // Its length is said beside its bytes, for the room of the checksum.
    fn put_data(&self, draft: &mut Draft)
        requires { length draft.old ≤ 2 }
        ensures written { draft.new ≡ draft.old ++ answer_data self.now }
        ensures len { length draft.new ≤ length draft.old + 56 }
    {
        match self {
            Answer::Ack => draft.append(&[6]),
            Answer::Nak => draft.append(&[21]),
            Answer::Totals {
                unit,
                software,
                counts,
                ..
            } => {
                draft.append(&[unit.system(false), *software, 0, 0]);
                draft.put(counts.cycles);
                draft.put(counts.flags);
                draft.put_all(&counts.totals);
            }
            Answer::Settings {
                unit,
                mark,
                software,
                sheet,
            } => {
                draft.append(&[unit.system(*mark), *software]);
                draft.put_sheet(sheet);
            }
            Answer::SystemType { unit, software } => draft.append(&[unit.system(false), *software]),
            Answer::Functions { f130, f82 } => {
                draft.append(&[
                    u8::from(Function::F130),
                    *f130,
                    u8::from(Function::F82),
                    *f82,
                ]);
                draft.append(&[0; 16]);
            }
            Answer::Version { characters } => draft.append(characters),
            Answer::DisplayUnits { units } => draft.append(&[u8::from(*units)]),
        }
    }
}
