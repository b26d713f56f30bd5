ghost use Rattle.std.specs.Prelude.{◌≡◌, ℕ, List, [], ◌∷◌};
ghost use Rattle.cable.specs.Pools.{Within};
ghost use Rattle.cable.specs.Held.{first, rest};

use mlan::burst::Burst;

// What a line holds on one way. Its meaning is these bursts, the next to be taken first.
pub trait Store: Sized {
    ghost held: { Self → List (List ℕ) };

    // what is held once a burst is put
    ghost rule: { List ℕ → List (List ℕ) → List (List ℕ) };

    fn empty() -> Self
        ensures { held result ≡ [] };

    fn put(&mut self, burst: Burst)
        ensures { held self.new ≡ rule burst (held self.old) };

    fn take(&mut self) -> Option<Burst>
        ensures gives { result ≡ first (held self.old) }
        ensures after { held self.new ≡ rest (held self.old) };

    // a putting adds its burst at most
    ghost adds: { (b : List ℕ) (bursts : List (List ℕ)) → Within (rule b bursts) (b ∷ bursts) };
}
