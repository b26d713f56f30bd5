ghost use Rattle.std.specs.Prelude.{◌≡◌, ◌<◌, [], ◌∷◌, ◌++◌, map, length, position, MatchResult, ◌==◌};
ghost use Rattle.blender.specs.Machines.{reply, after};
ghost use Rattle.segment.specs.Saying.{said_once, joined_said, Fits};
ghost use Rattle.rack.specs.Racks.{any_model, even_batched};
ghost use Rattle.rack.specs.Hanging.{racked, has_address, Unhung};
ghost use Rattle.rack.specs.declared.rack.RackFault.TheVariants.{Memory};

use super::AnyMachine;
use segment::segment::{Said, Segment};
use std::alloc::{AllocFailed, Global};
use terms::Refusal;
use terms::address::Address;

// Machines on one cable, from left to right.
#[derive(Drop)]
pub struct Rack {
    machines: Vec<AnyMachine>,
}

// Why no more machine hangs on a rack: it has 254, or there is no memory.
#[derive(Clone, Copy, Debug, PartialEq, Eq)]
pub enum RackFault {
    Full,
    Memory,
}

impl From<AllocFailed<AnyMachine>> for RackFault {
    ghost from_gives = { λ _ f. f ≡ Memory };

    fn from(_e: AllocFailed<AnyMachine>) -> RackFault {
        RackFault::Memory
    }
}

impl Rack {
    pub fn new(heap: Global) -> Rack
        ensures { racked result ≡ [] }
    {
        Rack {
            machines: Vec::new(heap),
        }
    }

    pub fn is_empty(&self) -> bool
        ensures { result ≡ (length (racked self.now) == 0) }
    {
        self.machines.is_empty()
    }

    // Hangs a machine at the right end. Two may have one address, as it happens in plants.
    pub fn hang(&mut self, machine: AnyMachine) -> Result<(), RackFault>
        ensures { MatchResult result
            (λ _. (length (racked self.old) < 254) × (racked self.new ≡ racked self.old ++ any_model machine ∷ []))
            (λ f. Unhung f (length (racked self.old)) × (racked self.new ≡ racked self.old)) }
    {
        if self.machines.len() >= 254 {
            return Err(RackFault::Full);
        }
        self.machines.push(machine)?;
        Ok(())
    }

    // Every machine runs a batch with this amount for each component.
    pub fn batch_evenly(&mut self, amount: u32)
        ensures { racked self.new ≡ map (even_batched amount) (racked self.old) }
    {
        for machine in self.machines.iter_mut() {
            let _ = machine.batch_evenly(amount);
        }
    }
}

// The place of the leftmost machine of an address.
fn place_of(machines: &[AnyMachine], address: u8) -> Option<usize>
    ensures { result ≡ position (has_address address) machines.now }
{
    machines
        .iter()
        .position(|machine| machine.address() == address)
}

// Shows a burst to the next machine, and adds what it says to what was said. Of 254 machines most
// hear nothing: such a one is not asked for a reply, which would have to be copied.
fn show_next(machine: &mut AnyMachine, burst: &[u8], said: &mut Said)
    ensures machine { any_model machine.new ≡ after (any_model machine.old) burst.now }
    ensures said { said.new ≡ joined_said said.old (said_once (reply (any_model machine.old) burst.now)) }
    ensures fits { Fits said.old → Fits said.new }
{
    if !machine.hears(burst) {
        return;
    }
    if let Said::Nothing = said {
        *said = machine.answer(burst).into();
    } else {
        // its reply collides, whatever it is
        machine.heed(burst);
        *said = Said::Clash;
    }
}

impl Segment for Rack {
    ghost machines = { racked };

    fn batch(&mut self, address: u8, amounts: &[u32]) -> Result<(), Refusal> {
        Address::new(address)?;
        let at = place_of(&self.machines, address).ok_or(Refusal::NoMachine)?;
        Segment::batch(&mut self.machines[at], address, amounts)
    }

    fn show(&mut self, burst: &[u8]) -> Said {
        let mut said = Said::Nothing;
        for machine in self.machines.iter_mut() {
            show_next(machine, burst, &mut said);
        }
        said
    }
}
