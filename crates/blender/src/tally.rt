ghost use Rattle.std.specs.Prelude.{◌≡◌, length};

use terms::Counts;

// A machine's counts, and that their totals are twelve: of an array inside a struct inside a struct
// no proof knows it by itself.
#[derive(Clone, Copy, Debug, PartialEq, Eq)]
pub(crate) struct Tally {
    pub(crate) counts: Counts,
    ghost twelve: { length counts.totals ≡ 12 },
}
