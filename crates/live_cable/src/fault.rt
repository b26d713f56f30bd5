ghost use Rattle.std.specs.Prelude.{◌≡◌, Some};
ghost use Rattle.live_cable.specs.FaultTexts.{fault_text, of_rack};

use rack::rack::RackFault;
use std::fmt;

// Why a command line names no machines to play.
#[derive(Clone, Copy, Debug, PartialEq, Eq)]
pub enum ArgumentFault {
    // No machine is named.
    NoMachine,
    // The words of a machine are not an address, a kind and a unit.
    Machine,
    // A machine has an address that is none.
    Address,
    // There are more machines than the 254 that a cable holds.
    TooMany,
    // `each` wants one number behind it, and nothing else.
    Each,
    // `each` wants at most 1,000,000.
    TooLarge,
    // There is no memory for the machines.
    Memory,
}

impl From<RackFault> for ArgumentFault {
    ghost from_gives = { λ fault f. f ≡ of_rack fault };

    fn from(fault: RackFault) -> ArgumentFault {
        match fault {
            RackFault::Full => ArgumentFault::TooMany,
            RackFault::Memory => ArgumentFault::Memory,
        }
    }
}

impl fmt::Display for ArgumentFault {
    ghost output = { λ f. Some (fault_text f) };

    fn fmt<W: fmt::Write>(&self, f: &mut fmt::Formatter<W>) -> fmt::Result {
        f.write_str(match self {
            ArgumentFault::NoMachine => "no machine is named",
            ArgumentFault::Machine => "a machine is not understood",
            ArgumentFault::Address => "an address is not 1 to 254",
            ArgumentFault::TooMany => "there are more than 254 machines",
            ArgumentFault::Each => "'each' is not followed by one number",
            ArgumentFault::TooLarge => "'each' is followed by more than 1000000",
            ArgumentFault::Memory => "there is no memory for the machines",
        })
    }
}
