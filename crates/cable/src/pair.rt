ghost use Rattle.std.specs.Prelude.{◌≡◌, true, Some};
ghost use Rattle.mlan.specs.Bursts.{is_burst};
ghost use Rattle.cable.specs.Pools.{takes, given, Stays};
ghost use Rattle.cable.specs.Held.{slot_pool, newest, replaced, GivesBurst, Carries};
ghost use Rattle.cable.specs.TwoWay.{pair_pool};
ghost use Rattle.cable.specs.Rules.{newest_adds};

use super::Way;
use super::store::Store;
use super::two_way::{TwoWay, carries};
use mlan::burst::Burst;

// A line that holds one burst each way; a newer one replaces it.
pub type Pair = TwoWay<Option<Burst>>;

impl Store for Option<Burst> {
    ghost held = { slot_pool };

    ghost rule = { newest };

    ghost adds = { newest_adds };

    fn empty() -> Self {
        None
    }

    fn put(&mut self, burst: Burst) {
        *self = Some(burst);
    }

    fn take(&mut self) -> Option<Burst> {
        Option::take(self)
    }
}

// A pair carries: what is put on it comes out at the next taking that way. (The clause `burst`
// is the pair's own, and so it has a function beside `carries`.)
pub fn pair_carries(pair: &mut Pair, way: Way, burst: &[u8], into: &mut [u8; 64]) -> Option<usize>
    ensures carries { Carries replaced way burst.now (pair_pool pair.old) (given result into.new) (pair_pool pair.new) }
    ensures burst { is_burst burst.now ≡ true → given result into.new ≡ Some burst.now }
    ensures whole { GivesBurst (takes (given result into.new)) }
    ensures rest { Stays result into.old into.new }
{
    carries(pair, way, burst, into)
}
