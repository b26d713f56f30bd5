ghost use Rattle.std.specs.Prelude.{◌≡◌};
ghost use Rattle.terms.specs.Addresses.{numbered, addressed};

use super::super::Refusal;
use super::Address;

impl Address {
    // A constructor that tests, as those of the library's `NonZero` do, and so no `TryFrom`.
    pub fn new(value: u8) -> Result<Address, Refusal>
        ensures { numbered result ≡ addressed value }
    {
        if value < 1 || value > 254 {
            return Err(Refusal::NoAddress);
        }
        Ok(Address { value })
    }
}
