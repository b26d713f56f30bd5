ghost use Rattle.std.specs.Prelude.{◌≡◌, true, [], Some};
ghost use Rattle.mlan.specs.Bursts.{is_burst};
ghost use Rattle.cable.specs.Pools.{takes, given, Stays};
ghost use Rattle.cable.specs.Held.{lined, GivesBurst, Carries};
ghost use Rattle.cable.specs.TwoWay.{carrier_pool};

use super::Way;
use super::queue::Queue;
use super::two_way::{TwoWay, carries};

// A line that holds eight bursts each way, first in first out, and drops a ninth.
pub type Carrier = TwoWay<Queue>;

// A carrier carries: what is put on an empty one comes out at the next taking that way, and
// what is put on another comes out behind what was there, unless it was full. (The clause
// `burst` is the carrier's own, and so it has a function beside `carries`.)
pub fn carrier_carries(
    carrier: &mut Carrier,
    way: Way,
    burst: &[u8],
    into: &mut [u8; 64],
) -> Option<usize>
    ensures carries { Carries lined way burst.now (carrier_pool carrier.old) (given result into.new) (carrier_pool carrier.new) }
    ensures burst { is_burst burst.now ≡ true → carrier_pool carrier.old way ≡ [] → given result into.new ≡ Some burst.now }
    ensures whole { GivesBurst (takes (given result into.new)) }
    ensures rest { Stays result into.old into.new }
{
    carries(carrier, way, burst, into)
}
