ghost use Rattle.std.specs.Prelude.{◌≡◌, [], is_none, position};
ghost use Rattle.cable.specs.Held.{first, rest, up_to_eight};
ghost use Rattle.cable.specs.Rules.{up_to_eight_adds};

use super::store::Store;
use mlan::burst::Burst;
use std::marker::Model;

// How many bursts a carrier holds each way.
const ROOM: usize = 8;

// At most eight bursts, the oldest first; the slots behind them are free. In a contract it is
// the list of these bursts. It is an array, and no vector, to be `Copy`.
#[derive(Clone, Copy, Debug, PartialEq, Eq)]
pub struct Queue {
    slots: [Option<Burst>; ROOM],
}

impl Model for Queue {
    ghost use Rattle.std.specs.Prelude.{◌≡◌, ℕ, List, length};
    ghost use Rattle.std.proofs.Common.{sym};
    ghost use Rattle.cable.specs.Slots.{in_line, bursts_in};

    ghost Value = { List (List ℕ) };

    ghost view = { λ q. bursts_in q.slots };

    ghost invariant = { λ q. (length q.slots ≡ 8) × (q.slots ≡ in_line 8 (bursts_in q.slots)) };

    ghost inverse = { λ v. record { slots = in_line 8 v } };

    ghost inverse_ok = { λ q h i. record { slots = sym h.1 i } };
}

fn first_free(slots: &[Option<Burst>]) -> Option<usize>
    ensures { result ≡ position is_none slots.now }
{
    slots.iter().position(Option::is_none)
}

impl Store for Queue {
    ghost held = { λ q. q };

    ghost rule = { up_to_eight };

    ghost adds = { up_to_eight_adds };

    fn empty() -> Self {
        Queue {
            slots: [None; ROOM],
        }
    }

    // A ninth burst is dropped.
    fn put(&mut self, burst: Burst) {
        // the last slot is filled last, so that a full queue copies nothing
        if self.slots[ROOM - 1].is_some() {
            return;
        }
        if let Some(free) = first_free(&self.slots) {
            self.slots[free] = Some(burst);
        }
    }

    fn take(&mut self) -> Option<Burst> {
        // an empty queue moves nothing
        if self.slots[0].is_none() {
            return None;
        }
        let oldest = self.slots[0].take();
        self.slots.rotate_left(1);
        oldest
    }
}
