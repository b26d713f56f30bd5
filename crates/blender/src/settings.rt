ghost use Rattle.std.specs.Prelude.{◌≡◌};
ghost use Rattle.blender.specs.Machines.{new_settings};

use terms::{Row, Sheet, WeightUnits};

// What commands set in a machine.
#[derive(Clone, Copy, Debug, PartialEq, Eq)]
pub struct Settings {
    pub sheet: Sheet<[Row; 12]>,
    pub f82: u8,
    pub f130: u8,
    pub units: WeightUnits,
    pub keypad: bool,
}

impl Settings {
    // Zero everywhere. It is written out, since a derived default says of an array only that
    // each of its elements is a default.
    pub(crate) fn new() -> Settings
        ensures { result ≡ new_settings }
    {
        Settings {
            sheet: Sheet {
                rows: [Row::default(); 12],
                recipe: 0,
                operator: 0,
                order: 0,
            },
            f82: 0,
            f130: 0,
            units: WeightUnits::Pounds,
            keypad: false,
        }
    }
}
