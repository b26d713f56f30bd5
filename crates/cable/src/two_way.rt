ghost use Rattle.std.specs.Prelude.{◌≡◌, []};
ghost use Rattle.cable.specs.declared.Way.TheVariants.{Down, Up};
ghost use Rattle.cable.specs.Pools.{takes, given, Stays};
ghost use Rattle.cable.specs.Held.{put_by, Exact, GivesBurst, Carries};
ghost use Rattle.cable.specs.TwoWay.{pools};
ghost use Rattle.cable.specs.Rules.{lawful as by_rule, Bursts, KeepsLaw};

use super::Way;
use super::line::Line;
use super::store::Store;
use mlan::burst::Burst;

// A line that holds the bursts of each way in a store of its own.
#[derive(Clone, Copy, Debug, PartialEq, Eq)]
pub struct TwoWay<S> {
    below: S,
    above: S,
}

impl<S: Store> TwoWay<S> {
    pub fn new() -> Self
        ensures down { pools S.held result Down ≡ [] }
        ensures up { pools S.held result Up ≡ [] }
    {
        TwoWay {
            below: S::empty(),
            above: S::empty(),
        }
    }
}

impl<S: Store> Line for TwoWay<S> {
    ghost pool = { pools S.held };

    ghost moves = { λ s w m t. Exact (put_by S.rule) w m (pools S.held s) (pools S.held t) × GivesBurst m };

    ghost lawful = { λ s w m t e. by_rule S.rule S.adds m w (pools S.held s) (pools S.held t) e.1 e.0 };

    // The way is matched in each call: a function that lends the store of a way would have to
    // promise what becomes of both.
    fn put(&mut self, way: Way, burst: &[u8]) {
        if let Some(burst) = Burst::new(burst) {
            match way {
                Way::Down => self.below.put(burst),
                Way::Up => self.above.put(burst),
            }
        }
    }

    fn take(&mut self, way: Way, into: &mut [u8; 64]) -> Option<usize> {
        let burst = match way {
            Way::Down => self.below.take(),
            Way::Up => self.above.take(),
        }?;
        Some(burst.write(into))
    }
}

// Such a line carries: what is put on it comes out by its store's rule.
pub fn carries<S: Store>(
    line: &mut TwoWay<S>,
    way: Way,
    burst: &[u8],
    into: &mut [u8; 64],
) -> Option<usize>
    ensures carries { Carries (put_by S.rule) way burst.now (pools S.held line.old) (given result into.new) (pools S.held line.new) }
    ensures whole { GivesBurst (takes (given result into.new)) }
    ensures rest { Stays result into.old into.new }
{
    line.put(way, burst);
    line.take(way, into)
}

// What such a line holds to be taken next, if anything, is a burst, since nothing else is put. It
// takes from a copy, and so leaves the line as it is.
pub fn holds_bursts<S: Store + Copy>(line: &TwoWay<S>, way: Way)
    ensures { Bursts (pools S.held line.now way) }
{
    let mut copy = *line;
    let mut lent = [0; 64];
    let _ = copy.take(way, &mut lent);
}

// Whatever a pair, a carrier or another such line holds, what it does by its rule is what a line
// may do.
pub fn keeps_law<S: Store + Copy>(line: &TwoWay<S>)
    ensures { KeepsLaw (put_by S.rule) (pools S.held) line.now }
{
    holds_bursts(line, Way::Down);
    holds_bursts(line, Way::Up);
}
