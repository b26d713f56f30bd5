ghost use Rattle.std.specs.Prelude.{◌≡◌, ◌+◌, ◌≤◌, true, ◌++◌, length, if◌then◌else◌, Ok, Err};
ghost use Rattle.terms.specs.declared.Refusal.TheVariants.{BadData};
ghost use Rattle.writing.specs.Requests.{request_code, request_data, request_bytes, row_in_range, rows_in_range, tag_in_range, in_range, TwelveRows, ReadsBack};

use super::draft::Draft;
use mlan::burst::Burst;
use terms::{Function, Refusal, Row, Sheet, Tag, WeightUnits};

// What a station asks of a machine. A `Command` is not this type at other rows, since by the
// rules of reading it also holds the letters of a tag, as a part of the burst.
#[derive(Clone, Copy, Debug, PartialEq, Eq)]
pub enum Request {
    // `reset` is code 16, which lowers the mark and the flags; code 17 only reads.
    GetTotals { reset: bool },
    SetSettings(Sheet<[Row; 12]>),
    GetSettings,
    GetType,
    SetFunction { function: Function, value: u8 },
    GetFunctions,
    GetVersion,
    GetUnits,
    SetUnits { units: WeightUnits },
    SetKeypad { flag: bool },
    SetTag { tag: Tag },
}

fn row_passes(row: &Row) -> bool
    ensures { result ≡ row_in_range row.now }
{
    row.material <= 3 && row.setting <= 999
}

fn rows_pass(rows: &[Row]) -> bool
    ensures { result ≡ rows_in_range rows.now }
{
    rows.iter().all(row_passes)
}

fn tag_passes(tag: Tag) -> bool
    ensures { result ≡ tag_in_range tag }
{
    Tag::new(&tag.letters(), tag.value()).is_ok()
}

impl Request {
    fn code(&self) -> u8
        ensures { result ≡ request_code self.now }
    {
        match self {
            Request::GetTotals { reset: true } => 16,
            Request::GetTotals { .. } => 17,
            Request::SetSettings(_) => 19,
            Request::GetSettings => 20,
            Request::GetType => 49,
            Request::SetFunction { .. } => 70,
            Request::GetFunctions => 71,
            Request::GetVersion => 80,
            Request::GetUnits => 85,
            Request::SetUnits { .. } => 86,
            Request::SetKeypad { .. } => 88,
            Request::SetTag { .. } => 90,
        }
    }

    fn passes(&self) -> bool
        ensures range { result ≡ in_range self.now }
        ensures shape { TwelveRows self.now }
    {
        match self {
            Request::SetSettings(sheet) => {
                rows_pass(&sheet.rows)
                    && tag_passes(Tag::Recipe(sheet.recipe))
                    && tag_passes(Tag::Operator(sheet.operator))
                    && tag_passes(Tag::WorkOrder(sheet.order))
            }
            Request::SetFunction { function, value } => *value <= function.limit(),
            Request::SetTag { tag } => tag_passes(*tag),
            _ => true,
        }
    }

    // Its length is said beside its bytes, for the room of the checksum.
    fn put_data(&self, draft: &mut Draft)
        requires { length draft.old ≤ 2 }
        ensures written { draft.new ≡ draft.old ++ request_data self.now }
        ensures len { length draft.new ≤ length draft.old + 44 }
    {
        match self {
            Request::SetSettings(sheet) => draft.put_sheet(sheet),
            Request::SetFunction { function, value } => {
                draft.append(&[u8::from(*function)]);
                draft.put(u16::from(*value));
            }
            Request::GetFunctions => draft.append(&[0]),
            Request::SetUnits { units } => draft.append(&[u8::from(*units)]),
            Request::SetKeypad { flag } => draft.append(&[u8::from(*flag)]),
            Request::SetTag { tag } => {
                draft.append(&tag.letters());
                draft.put(tag.value());
            }
            _ => {}
        }
    }

    // The burst for an address, or for all machines where that is 0. A value outside its range
    // is refused. Whoever reads the burst reads what was meant.
    pub fn burst(&self, address: u8) -> Result<Burst, Refusal>
        ensures answer { result ≡ (if in_range self.now then Ok (request_bytes address self.now) else Err BadData) }
        ensures read_back { in_range self.now ≡ true → ReadsBack address self.now }
    {
        if !self.passes() {
            return Err(Refusal::BadData);
        }
        let mut draft = Draft::new();
        draft.append(&[address, self.code()]);
        self.put_data(&mut draft);
        Ok(draft.seal())
    }
}
