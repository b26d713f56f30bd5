// Why a burst is not a command of a kind: the first test that it fails.
#[derive(Clone, Copy, Debug, PartialEq, Eq)]
pub enum CommandFault {
    // Fewer than three bytes, or a wrong sum.
    Unsound,
    // A code that the kind does not take.
    Code,
    // Another length than the code's; the burst's length is given.
    Length { length: usize },
    // A field outside its range; its first byte in the burst is given.
    Field { at: usize },
}
