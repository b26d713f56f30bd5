ghost use Rattle.std.specs.Prelude.{◌≡◌, ℕ, List};
ghost use Rattle.cable.specs.declared.Way.{Way};
ghost use Rattle.cable.specs.Pools.{other, Motion, puts, takes, Lawful, given, Fits, Stays};

use super::Way;
use mlan::burst::Burst;

// A line. Its meaning is two pools of bursts, one each way, that are empty when it is new.
// It chooses what becomes of a burst: `moves` says what a call did, and can be had for a
// line that is not known only by calling it.
pub trait Line {
    ghost pool: { Self → Way → List (List ℕ) };

    // from a line, by a motion on one way, to the line afterwards
    ghost moves: { Self → Way → Motion → Self → Type 0 };

    // Puts a burst on its way. What is no burst (no bytes, or more than 64) is not put.
    fn put(&mut self, way: Way, burst: &[u8])
        ensures { moves self.old way (puts burst.now) self.new };

    // Takes a burst that came this way: writes it over the first bytes that are lent, and
    // answers its length, or nothing. The bytes behind it stay as they were. By the rules of
    // lines 64 bytes are lent, so that every burst fits (docs/PROTOCOL.md, Lines).
    fn take(&mut self, way: Way, into: &mut [u8; 64]) -> Option<usize>
        ensures moves { moves self.old way (takes (given result into.new)) self.new }
        ensures fits { Fits result }
        ensures rest { Stays result into.old into.new };

    ghost lawful: { (s : Self) (w : Way) (m : Motion) (t : Self) → moves s w m t → Lawful m (pool s w) (pool s (other w)) (pool t w) (pool t (other w)) };
}

// Takes a burst to keep, or nothing.
pub fn taken<L: Line>(line: &mut L, way: Way) -> Option<Burst>
    ensures { L.Line.moves line.old way (takes result) line.new }
{
    let mut lent = [0; 64];
    let len = line.take(way, &mut lent)?;
    Burst::new(&lent[..len])
}
