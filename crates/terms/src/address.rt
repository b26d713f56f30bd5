ghost use Rattle.std.specs.Prelude.{◌≤◌};

// The address of a machine: 1 to 254, and no other can be made.
#[derive(Clone, Copy, Debug, PartialEq, Eq)]
pub struct Address {
    pub value: u8,
    ghost from_one: { 1 ≤ value },
    ghost to_254: { value ≤ 254 },
}

pub mod make;
