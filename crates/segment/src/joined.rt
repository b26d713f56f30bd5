ghost use Rattle.std.specs.Prelude.{◌≡◌, ◌++◌};

use super::segment::{Said, Segment};
use terms::Refusal;

// Two drops joined, the left one first.
#[derive(Drop)]
pub struct Joined<A, B> {
    pub left: A,
    pub right: B,
}

impl<A: Segment, B: Segment> Joined<A, B> {
    pub fn new(left: A, right: B) -> Joined<A, B>
        ensures left { result.left ≡ left }
        ensures right { result.right ≡ right }
    {
        Joined { left, right }
    }
}

impl<A: Segment, B: Segment> Segment for Joined<A, B> {
    ghost machines = { λ j. A.Segment.machines j.left ++ B.Segment.machines j.right };

    fn batch(&mut self, address: u8, amounts: &[u32]) -> Result<(), Refusal> {
        match self.left.batch(address, amounts) {
            Ok(()) => Ok(()),
            // a match of its own, which tells the proof that another refusal is not `NoMachine`
            Err(refusal) => match refusal {
                Refusal::NoMachine => self.right.batch(address, amounts),
                other => Err(other),
            },
        }
    }

    fn show(&mut self, burst: &[u8]) -> Said {
        let left = self.left.show(burst);
        let right = self.right.show(burst);
        left.and(right)
    }
}
