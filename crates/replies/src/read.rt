ghost use Rattle.std.specs.Prelude.{◌≡◌, ◌+◌, ◌≤◌, length};
ghost use Rattle.std.specs.Option.{ok_or};
ghost use Rattle.kinds.specs.Kinds.{all_characters};
ghost use Rattle.terms.specs.Fields.{unit_of, software_of};
ghost use Rattle.mlan.specs.Frame.{piece};
ghost use Rattle.mlan.specs.Rows.{rows_fault};
ghost use Rattle.replies.specs.Replies.{marked_of, total_at, totals_in, shown_facts, as_totals, as_settings, as_type, as_functions, as_version, as_units, told_by};
ghost use Rattle.replies.specs.Meaning.{telling};

use super::reply::Reply;
use faults::MessageFault;
use kinds::{Four, Twelve};
use mlan::frame::Part;
use rows::rows_fault;
use std::array;
use terms::{Counts, Function, Sheet, Software, Unit, WeightUnits};

// The fault of data of a wrong length: the burst has three bytes more. `commands` has the same
// two lines with another fault; a trait for both faults would be longer than both.
pub(crate) fn length_fault(bytes: &[u8]) -> MessageFault
    ensures { result ≡ MessageFault.Malformed (length bytes.now + 3) }
{
    MessageFault::Malformed {
        at: bytes.len() + 3,
    }
}

// The unit of a system byte with the change mark down.
fn unit_in(system: u8) -> Result<Unit, MessageFault>
    ensures { result ≡ ok_or (unit_of system) (MessageFault.Malformed 2) }
{
    Unit::try_from(system).map_err(|_| MessageFault::Malformed { at: 2 })
}

// The software type stands behind the system byte.
fn software_in(code: u8) -> Result<Software, MessageFault>
    ensures { result ≡ ok_or (software_of code) (MessageFault.Malformed 3) }
{
    Software::try_from(code).map_err(|_| MessageFault::Malformed { at: 3 })
}

// In a settings reply the system byte tells the change mark too. A unit with a mark is no type
// of ours, so that this is no `TryFrom`.
fn marked_of(system: u8) -> Option<(Unit, bool)>
    ensures { result ≡ marked_of system }
{
    match system {
        2 => Some((Unit::Tenths, false)),
        3 => Some((Unit::Tenths, true)),
        9 => Some((Unit::Grams, false)),
        10 => Some((Unit::Grams, true)),
        _ => None,
    }
}

// The total of a place, 1 to 12.
fn total_at(bytes: &[u8], place: usize) -> u32
    requires whole { length bytes.now ≡ 56 }
    requires within { (1 ≤ place) × (place ≤ 12) }
    ensures { result ≡ total_at bytes.now place }
{
    let at = 4 * place + 4;
    u32::from_be_bytes([bytes[at], bytes[at + 1], bytes[at + 2], bytes[at + 3]])
}

// The twelve totals of a totals reply.
fn totals_in(bytes: &[u8]) -> [u32; 12]
    requires { length bytes.now ≡ 56 }
    ensures { result ≡ totals_in bytes.now }
{
    array::from_fn(|i| total_at(bytes, i + 1))
}

fn read_totals(reset: bool, bytes: &[u8]) -> Result<Reply<'_>, MessageFault>
    ensures { telling result ≡ as_totals reset bytes.now }
{
    if bytes.len() != 56 {
        return Err(length_fault(bytes));
    }
    let unit = unit_in(bytes[0])?;
    let software = software_in(bytes[1])?;
    let counts = Counts {
        totals: totals_in(bytes),
        cycles: u16::from_be_bytes([bytes[4], bytes[5]]),
        flags: u16::from_be_bytes([bytes[6], bytes[7]]),
    };
    Ok(Reply::Totals {
        reset,
        unit,
        software,
        counts,
    })
}

// The first byte of the first field of the rows that a reply with this software cannot show.
fn shown_rows_fault(software: Software, rows: Part<'_>) -> Option<usize>
    ensures { result ≡ rows_fault (shown_facts software) (piece rows.entry) }
{
    match software {
        Software::Four => rows_fault::<Four>(rows),
        Software::Twelve => rows_fault::<Twelve>(rows),
    }
}

// Recipe, operator and work order stand two bytes before those of a settings command. Reading
// both by one function would want a definition that holds for any part and place, longer than both.
fn read_settings(bytes: &[u8]) -> Result<Reply<'_>, MessageFault>
    ensures { telling result ≡ as_settings bytes.now }
{
    if bytes.len() != 46 {
        return Err(length_fault(bytes));
    }
    let Some((unit, mark)) = marked_of(bytes[0]) else {
        return Err(MessageFault::Malformed { at: 2 });
    };
    let software = software_in(bytes[1])?;
    let rows = Part {
        at: 4,
        bytes: &bytes[2..38],
    };
    if let Some(at) = shown_rows_fault(software, rows) {
        return Err(MessageFault::Malformed { at });
    }
    let operator = u16::from_be_bytes([bytes[40], bytes[41]]);
    if operator > 999 {
        return Err(MessageFault::Malformed { at: 42 });
    }
    let order = u32::from_be_bytes([bytes[42], bytes[43], bytes[44], bytes[45]]);
    if order > 999_999 {
        return Err(MessageFault::Malformed { at: 44 });
    }
    Ok(Reply::Settings {
        unit,
        mark,
        software,
        sheet: Sheet {
            rows,
            recipe: u16::from_be_bytes([bytes[38], bytes[39]]),
            operator,
            order,
        },
    })
}

fn read_type(bytes: &[u8]) -> Result<Reply<'_>, MessageFault>
    ensures { telling result ≡ as_type bytes.now }
{
    let [system, software] = bytes else {
        return Err(length_fault(bytes));
    };
    let unit = unit_in(*system)?;
    let software = software_in(*software)?;
    Ok(Reply::SystemType { unit, software })
}

// The labels 130 and 82 are tested, the zeros behind their values are not.
fn read_functions(bytes: &[u8]) -> Result<Reply<'_>, MessageFault>
    ensures { telling result ≡ as_functions bytes.now }
{
    if bytes.len() != 20 {
        return Err(length_fault(bytes));
    }
    if bytes[0] != u8::from(Function::F130) {
        return Err(MessageFault::Malformed { at: 2 });
    }
    if bytes[1] > Function::F130.limit() {
        return Err(MessageFault::Malformed { at: 3 });
    }
    if bytes[2] != u8::from(Function::F82) {
        return Err(MessageFault::Malformed { at: 4 });
    }
    if bytes[3] > Function::F82.limit() {
        return Err(MessageFault::Malformed { at: 5 });
    }
    Ok(Reply::Functions {
        f130: bytes[1],
        f82: bytes[3],
    })
}

fn all_characters(bytes: &[u8]) -> bool
    ensures { result ≡ all_characters bytes.now }
{
    bytes.iter().all(|byte| matches!(*byte, 32..=126))
}

// A version is one field, named by its first byte.
fn read_version(bytes: &[u8]) -> Result<Reply<'_>, MessageFault>
    ensures { telling result ≡ as_version bytes.now }
{
    if bytes.len() != 6 {
        return Err(length_fault(bytes));
    }
    if !all_characters(bytes) {
        return Err(MessageFault::Malformed { at: 2 });
    }
    Ok(Reply::Version {
        characters: Part { at: 2, bytes },
    })
}

// `commands` reads the same byte of a command; the two differ in what they make and in the fault.
fn read_units(bytes: &[u8]) -> Result<Reply<'_>, MessageFault>
    ensures { telling result ≡ as_units bytes.now }
{
    let [code] = bytes else {
        return Err(length_fault(bytes));
    };
    let Ok(units) = WeightUnits::try_from(*code) else {
        return Err(MessageFault::Malformed { at: 2 });
    };
    Ok(Reply::DisplayUnits { units })
}

// The reply of a code with its data.
pub(crate) fn read_data(code: u8, bytes: &[u8]) -> Result<Reply<'_>, MessageFault>
    ensures { telling result ≡ told_by code bytes.now }
{
    match code {
        16 => read_totals(true, bytes),
        17 => read_totals(false, bytes),
        20 => read_settings(bytes),
        49 => read_type(bytes),
        71 => read_functions(bytes),
        80 => read_version(bytes),
        85 => read_units(bytes),
        _ => Err(MessageFault::OtherCode),
    }
}
