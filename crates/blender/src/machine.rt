use super::modelled::Modelled;
use super::settings::Settings;
use super::tally::Tally;
use kinds::Kind;
use terms::Unit;
use terms::address::Address;

// A machine of a kind, at an address. It has no ghost field itself: `Modelled` says why. That its
// address is 1 to 254 and its totals are twelve, a caller knows from the types of its fields.
#[derive(Drop)]
pub struct Machine<K: Kind> {
    address: Modelled<Address>,
    unit: Unit,
    tally: Modelled<Tally>,
    // the change mark: up since a batch, until code 16 has read the totals
    mark: bool,
    settings: Settings,
    kind: K,
}

mod working;
