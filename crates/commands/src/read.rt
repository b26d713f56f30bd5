ghost use Rattle.std.specs.Prelude.{◌≡◌, ◌+◌, ◌≤◌, length};
ghost use Rattle.mlan.specs.Commands.{Said, get_totals, no_data, as_settings, as_function, as_functions, as_units, as_keypad, as_tag, by_code, data_as, read_as};
ghost use Rattle.commands.specs.Meaning.{said, reading};

use super::command::Command;
use kinds::Kind;
use mlan::checksum::sound;
use mlan::fault::CommandFault;
use mlan::frame::{Frame, Part};
use rows::rows_fault;
use terms::{Function, Sheet, Tag, TagFault, WeightUnits};

// The fault of data of a wrong length: the burst has three bytes more. `replies` has the same
// two lines with another fault; a trait for both faults would be longer than both.
fn length_fault(bytes: &[u8]) -> CommandFault
    ensures { result ≡ CommandFault.Length (length bytes.now + 3) }
{
    CommandFault::Length {
        length: bytes.len() + 3,
    }
}

fn without_data<'a>(command: Command<'a>, bytes: &[u8]) -> Result<Command<'a>, CommandFault>
    ensures { reading result ≡ no_data (said command.entry) bytes.now }
{
    if bytes.is_empty() {
        Ok(command)
    } else {
        Err(length_fault(bytes))
    }
}

fn read_function(bytes: &[u8]) -> Result<Command<'_>, CommandFault>
    ensures { reading result ≡ as_function bytes.now }
{
    let [code, high, low] = bytes else {
        return Err(length_fault(bytes));
    };
    let Ok(function) = Function::try_from(*code) else {
        return Err(CommandFault::Field { at: 2 });
    };
    let value = u16::from_be_bytes([*high, *low]);
    if value > u16::from(function.limit()) {
        return Err(CommandFault::Field { at: 3 });
    }
    Ok(Command::SetFunction {
        function,
        value: value as u8,
    })
}

fn read_functions(bytes: &[u8]) -> Result<Command<'_>, CommandFault>
    ensures { reading result ≡ as_functions bytes.now }
{
    match bytes {
        [0] => Ok(Command::GetFunctions),
        [_] => Err(CommandFault::Field { at: 2 }),
        _ => Err(length_fault(bytes)),
    }
}

fn read_units(bytes: &[u8]) -> Result<Command<'_>, CommandFault>
    ensures { reading result ≡ as_units bytes.now }
{
    let [code] = bytes else {
        return Err(length_fault(bytes));
    };
    let Ok(units) = WeightUnits::try_from(*code) else {
        return Err(CommandFault::Field { at: 2 });
    };
    Ok(Command::SetUnits { units })
}

fn read_keypad(bytes: &[u8]) -> Result<Command<'_>, CommandFault>
    ensures { reading result ≡ as_keypad bytes.now }
{
    match bytes {
        [0] => Ok(Command::SetKeypad { flag: false }),
        [1] => Ok(Command::SetKeypad { flag: true }),
        [_] => Err(CommandFault::Field { at: 2 }),
        _ => Err(length_fault(bytes)),
    }
}

fn read_tag(bytes: &[u8]) -> Result<Command<'_>, CommandFault>
    ensures { reading result ≡ as_tag bytes.now }
{
    let [_, _, a, b, c, d] = bytes else {
        return Err(length_fault(bytes));
    };
    let letters = Part {
        at: 2,
        bytes: &bytes[0..2],
    };
    match Tag::new(letters.bytes, u32::from_be_bytes([*a, *b, *c, *d])) {
        Ok(tag) => Ok(Command::SetTag { letters, tag }),
        Err(TagFault::Letters) => Err(CommandFault::Field { at: 2 }),
        Err(TagFault::Value) => Err(CommandFault::Field { at: 4 }),
    }
}

fn read_settings<K: Kind>(bytes: &[u8]) -> Result<Command<'_>, CommandFault>
    ensures { reading result ≡ as_settings K.Kind.facts bytes.now }
{
    if bytes.len() != 44 {
        return Err(length_fault(bytes));
    }
    let rows = Part {
        at: 2,
        bytes: &bytes[0..36],
    };
    if let Some(at) = rows_fault::<K>(rows) {
        return Err(CommandFault::Field { at });
    }
    let recipe = u16::from_be_bytes([bytes[36], bytes[37]]);
    let operator = u16::from_be_bytes([bytes[38], bytes[39]]);
    if operator > 999 {
        return Err(CommandFault::Field { at: 40 });
    }
    let order = u32::from_be_bytes([bytes[40], bytes[41], bytes[42], bytes[43]]);
    if order > 999_999 {
        return Err(CommandFault::Field { at: 42 });
    }
    Ok(Command::SetSettings(Sheet {
        rows,
        recipe,
        operator,
        order,
    }))
}

// Codes are numbers: a burst may have any, and an enum of them would be matched at once again,
// here and where kinds, answers and requests name theirs.
fn read_data<K: Kind>(code: u8, bytes: &[u8]) -> Result<Command<'_>, CommandFault>
    ensures { reading result ≡ by_code K.Kind.facts code bytes.now }
{
    match code {
        16 => without_data(Command::GetTotals { reset: true }, bytes),
        17 => without_data(Command::GetTotals { reset: false }, bytes),
        19 => read_settings::<K>(bytes),
        20 => without_data(Command::GetSettings, bytes),
        49 => without_data(Command::GetType, bytes),
        70 => read_function(bytes),
        71 => read_functions(bytes),
        80 => without_data(Command::GetVersion, bytes),
        85 => without_data(Command::GetUnits, bytes),
        86 => read_units(bytes),
        88 => read_keypad(bytes),
        90 => read_tag(bytes),
        _ => Err(CommandFault::Code),
    }
}

impl<'a> Command<'a> {
    // The command of a code with its data, if it is one of the kind's.
    pub fn of_data<K: Kind>(code: u8, bytes: &'a [u8]) -> Result<Command<'a>, CommandFault>
        ensures { reading result ≡ data_as K.Kind.facts code bytes.now }
    {
        if K::takes(code) {
            read_data::<K>(code, bytes)
        } else {
            Err(CommandFault::Code)
        }
    }

    // The command in a burst, if it is sound and one of the kind's.
    pub fn read<K: Kind>(burst: &'a [u8]) -> Result<Command<'a>, CommandFault>
        ensures { reading result ≡ read_as K.Kind.facts burst.now }
    {
        if !sound(burst) {
            return Err(CommandFault::Unsound);
        }
        let Some(frame) = Frame::split(burst) else {
            return Err(CommandFault::Unsound);
        };
        Command::of_data::<K>(frame.code, frame.inner.bytes)
    }
}
