// What a test stand tells of a line of its script.
#![tactic(auto)]

ghost use Rattle.std.specs.Prelude.{Some};
ghost use Rattle.stand_text.specs.Texts.{text_of};

use mlan::burst::Burst;
use std::convert::AsSlice;
use std::fmt;
use terms::Refusal;
use wording::bytes::Spaced;
use wording::plate::Plate;

// What came of a line. The reply is whatever lends its bytes, as a `Burst` or a slice of any length.
#[derive(Clone, Copy, Debug, PartialEq, Eq)]
pub enum Event<R = Burst> {
    // The machine that was hung on the stand, or why none was.
    Hung(Result<Plate, Refusal>),
    // Whether a batch ran.
    Batch(Result<(), Refusal>),
    // What was replied to a burst, if anything.
    Reply(Option<R>),
    NotUnderstood { line: u64 },
}

impl<R: AsSlice<u8>> fmt::Display for Event<R> {
    ghost output = { λ e. Some (text_of R.AsSlice.items e) };

    fn fmt<W: fmt::Write>(&self, f: &mut fmt::Formatter<W>) -> fmt::Result {
        match self {
            Event::Hung(Ok(plate)) => write!(f, "machine {plate}"),
            Event::Hung(Err(refusal)) => write!(f, "machine: refused {}", refusal.number()),
            Event::Batch(Ok(())) => write!(f, "batch: accepted"),
            Event::Batch(Err(refusal)) => write!(f, "batch: refused {}", refusal.number()),
            Event::Reply(Some(reply)) => write!(f, "reply:{}", Spaced(reply.as_slice())),
            Event::Reply(None) => write!(f, "no reply"),
            Event::NotUnderstood { line } => write!(f, "line {line}: not understood"),
        }
    }
}
