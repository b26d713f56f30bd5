ghost use Rattle.std.specs.Prelude.{◌≡◌};

use std::marker::Model;

// A value of a type with ghost fields, behind a model: in a contract it is the value, with all that
// its type says of it. Through `&mut`, no pattern can bind an enum that holds structs with ghost
// fields where that enum lies in another, as an `AnyMachine` in an `Option`. Behind a model it can.
#[derive(Drop)]
pub(crate) struct Modelled<T: Copy> {
    value: T,
}

impl<T: Copy> Model for Modelled<T> {
    ghost Value = { T };

    ghost view = { λ m. m.value };
}

impl<T: Copy> Modelled<T> {
    pub(crate) fn new(value: T) -> Modelled<T>
        ensures { result ≡ value }
    {
        Modelled { value }
    }

    pub(crate) fn get(&self) -> T
        ensures { result ≡ self.now }
    {
        self.value
    }
}
