ghost use Rattle.std.specs.Prelude.{◌≡◌, List, [], ◌∷◌};
ghost use Rattle.blender.specs.Machines.{Model, model};
ghost use Rattle.segment.specs.Drops.{drop_answer, drop_batched, replies, shown};
ghost use Rattle.segment.specs.Saying.{said_of, said_once, joined_said, reply_said, Fits};

use blender::machine::Machine;
use kinds::Kind;
use mlan::burst::Burst;
use terms::Refusal;

// What the machines of a drop said to a burst. Two replies collide, so that nobody
// understands either. A reply is whatever the caller has of it, as a length or a `Burst`.
#[derive(Clone, Copy, Debug, PartialEq, Eq)]
pub enum Said<R = Burst> {
    Nothing,
    Reply(R),
    Clash,
}

// What one machine said.
impl<R> From<Option<R>> for Said<R> {
    ghost from_gives = { λ reply said. said ≡ said_once reply };

    fn from(reply: Option<R>) -> Said<R> {
        match reply {
            None => Said::Nothing,
            Some(reply) => Said::Reply(reply),
        }
    }
}

impl<R: Copy> Said<R> {
    // What the machines so far and the next one said.
    pub fn and(self, next: Said<R>) -> Said<R>
        ensures { result ≡ joined_said self next }
    {
        match (self, next) {
            (_, Said::Nothing) => self,
            (Said::Nothing, _) => next,
            _ => Said::Clash,
        }
    }
}

impl Said {
    // The only reply, if there is one.
    pub fn reply(self) -> Option<Burst>
        ensures { result ≡ reply_said self }
    {
        match self {
            Said::Reply(reply) => Some(reply),
            Said::Nothing | Said::Clash => None,
        }
    }
}

// A drop: a part of a cable with its machines. Its meaning is these, from left to right.
pub trait Segment {
    ghost machines: { Self → List Model };

    // Runs a batch on the leftmost machine of an address: an amount for each component. The two
    // stay apart, since each is tested and refused by itself.
    fn batch(&mut self, address: u8, amounts: &[u32]) -> Result<(), Refusal>
        ensures answer { result ≡ drop_answer address amounts.now (machines self.old) }
        ensures machines { machines self.new ≡ drop_batched address amounts.now (machines self.old) };

    // Shows a burst to all machines.
    fn show(&mut self, burst: &[u8]) -> Said
        ensures said { result ≡ said_of (replies burst.now (machines self.old)) }
        ensures machines { machines self.new ≡ shown burst.now (machines self.old) };

    // The same, and that a reply has 1 to 64 bytes, which the type of what is said implies: who
    // implements a drop has it for nothing.
    fn show_fit(&mut self, burst: &[u8]) -> Said
        ensures said { result ≡ said_of (replies burst.now (machines self.old)) }
        ensures machines { machines self.new ≡ shown burst.now (machines self.old) }
        ensures fits { Fits result }
    {
        self.show(burst)
    }
}

impl<K: Kind> Segment for Machine<K> {
    ghost machines = { λ m. model K.Kind.facts m ∷ [] };

    fn batch(&mut self, address: u8, amounts: &[u32]) -> Result<(), Refusal> {
        Machine::batch(self, address, amounts)
    }

    fn show(&mut self, burst: &[u8]) -> Said {
        self.answer(burst).into()
    }
}
