ghost use Rattle.std.specs.Prelude.{◌≡◌, Some};
ghost use Rattle.terms.specs.Words.{named, kind_of, unit_of, kind_text, unit_text};

use super::{KindName, Unit};
use std::fmt;

// A word that names nothing of what it should. It is bytes, which need be no text.
#[derive(Clone, Copy, Debug, PartialEq, Eq)]
pub struct UnknownWord;

impl TryFrom<&[u8]> for KindName {
    type Error = UnknownWord;

    ghost try_from_gives = { λ word r. r ≡ named (kind_of word.now) };

    fn try_from(word: &[u8]) -> Result<KindName, UnknownWord> {
        match word {
            b"four" => Ok(KindName::Four),
            b"twelve" => Ok(KindName::Twelve),
            b"feeder" => Ok(KindName::Feeder),
            _ => Err(UnknownWord),
        }
    }
}

impl TryFrom<&[u8]> for Unit {
    type Error = UnknownWord;

    ghost try_from_gives = { λ word r. r ≡ named (unit_of word.now) };

    fn try_from(word: &[u8]) -> Result<Unit, UnknownWord> {
        match word {
            b"tenths" => Ok(Unit::Tenths),
            b"grams" => Ok(Unit::Grams),
            _ => Err(UnknownWord),
        }
    }
}

impl fmt::Display for KindName {
    ghost output = { λ kind. Some (kind_text kind) };

    fn fmt<W: fmt::Write>(&self, f: &mut fmt::Formatter<W>) -> fmt::Result {
        f.write_str(match self {
            KindName::Four => "four",
            KindName::Twelve => "twelve",
            KindName::Feeder => "feeder",
        })
    }
}

impl fmt::Display for Unit {
    ghost output = { λ unit. Some (unit_text unit) };

    fn fmt<W: fmt::Write>(&self, f: &mut fmt::Formatter<W>) -> fmt::Result {
        f.write_str(match self {
            Unit::Tenths => "tenths",
            Unit::Grams => "grams",
        })
    }
}
