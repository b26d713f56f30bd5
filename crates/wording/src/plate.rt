ghost use Rattle.std.specs.Prelude.{◌≡◌, ◌<◌, length, IfNone, OnSome, Some};
ghost use Rattle.std.specs.Option.{option_map};
ghost use Rattle.script.specs.Words.{words};
ghost use Rattle.wording.specs.Plates.{plate_in};
ghost use Rattle.wording.specs.Texts.{plate_text};

use script::{Numeral, Words};
use std::fmt;
use terms::{KindName, Unit};

// What a script says of a machine: its address, its kind and its unit.
#[derive(Clone, Copy, Debug, PartialEq, Eq)]
pub struct Plate {
    pub address: u8,
    pub kind: KindName,
    pub unit: Unit,
}

impl Plate {
    // The plate that the next three words of a line say, which are taken. Where they say none,
    // the line stays as it was.
    pub fn read(line: &mut Words) -> Option<Plate>
        ensures plate { option_map (λ p. (p, words line.new)) result ≡ plate_in (words line.old) }
        ensures shorter { OnSome result (length line.new < length line.old) }
        ensures kept { IfNone result (line.new ≡ line.old) }
    {
        // a copy, as `clone` would make it with a `Result`
        let mut ahead = Words::of(line.rest());
        let address = ahead.next()?;
        let kind = ahead.next()?;
        let unit = ahead.next()?;
        let plate = Plate {
            address: u8::from_word(address)?,
            kind: KindName::try_from(kind).ok()?,
            unit: Unit::try_from(unit).ok()?,
        };
        *line = ahead;
        Some(plate)
    }
}

impl fmt::Display for Plate {
    ghost output = { λ p. Some (plate_text p) };

    fn fmt<W: fmt::Write>(&self, f: &mut fmt::Formatter<W>) -> fmt::Result {
        write!(f, "{} {} {}", self.address, self.kind, self.unit)
    }
}
