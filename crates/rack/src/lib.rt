// Machines whose kind is chosen while a program runs.
#![tactic(auto)]

ghost use Rattle.std.specs.Prelude.{◌≡◌, ◌≤◌, [], ◌∷◌, length, IfSome};
ghost use Rattle.terms.specs.Addresses.{number};
ghost use Rattle.blender.specs.Batches.{batch_answer, batched};
ghost use Rattle.blender.specs.Machines.{new_model, concerns, reply, after};
ghost use Rattle.rack.specs.Racks.{any_model, facts_of, even_answer, even_batched};

pub mod rack;

use blender::machine::Machine;
use kinds::{Feeder, Four, Twelve};
use mlan::burst::Burst;
use segment::segment::{Said, Segment};
use terms::address::Address;
use terms::{KindName, Refusal, Unit};

// An enum, since a function may not make a `dyn` value and hand it out.
#[derive(Drop)]
pub enum AnyMachine {
    OfFour(Machine<Four>),
    OfTwelve(Machine<Twelve>),
    OfFeeder(Machine<Feeder>),
}

impl AnyMachine {
    pub fn new(kind: KindName, address: Address, unit: Unit) -> AnyMachine
        ensures { any_model result ≡ new_model (facts_of kind) (number address) unit }
    {
        match kind {
            KindName::Four => AnyMachine::OfFour(Machine::new(address, unit, Four)),
            KindName::Twelve => AnyMachine::OfTwelve(Machine::new(address, unit, Twelve)),
            KindName::Feeder => AnyMachine::OfFeeder(Machine::new(address, unit, Feeder)),
        }
    }

    // As `Machine::hears`.
    pub fn hears(&self, burst: &[u8]) -> bool
        ensures { result ≡ concerns (any_model self.now) burst.now }
    {
        match self {
            AnyMachine::OfFour(m) => m.hears(burst),
            AnyMachine::OfTwelve(m) => m.hears(burst),
            AnyMachine::OfFeeder(m) => m.hears(burst),
        }
    }

    // As `Machine::answer`.
    pub fn answer(&mut self, burst: &[u8]) -> Option<Burst>
        ensures reply { result ≡ reply (any_model self.old) burst.now }
        ensures fits { IfSome result (λ r. (1 ≤ length r) × (length r ≤ 64)) }
        ensures machine { any_model self.new ≡ after (any_model self.old) burst.now }
    {
        match self {
            AnyMachine::OfFour(m) => m.answer(burst),
            AnyMachine::OfTwelve(m) => m.answer(burst),
            AnyMachine::OfFeeder(m) => m.answer(burst),
        }
    }

    // As `Machine::heed`.
    pub fn heed(&mut self, burst: &[u8])
        ensures { any_model self.new ≡ after (any_model self.old) burst.now }
    {
        match self {
            AnyMachine::OfFour(m) => m.heed(burst),
            AnyMachine::OfTwelve(m) => m.heed(burst),
            AnyMachine::OfFeeder(m) => m.heed(burst),
        }
    }

    // As `Machine::batch`.
    pub fn batch(&mut self, address: u8, amounts: &[u32]) -> Result<(), Refusal>
        ensures answer { result ≡ batch_answer address amounts.now (any_model self.old) }
        ensures machine { any_model self.new ≡ batched address amounts.now (any_model self.old) }
    {
        match self {
            AnyMachine::OfFour(m) => m.batch(address, amounts),
            AnyMachine::OfTwelve(m) => m.batch(address, amounts),
            AnyMachine::OfFeeder(m) => m.batch(address, amounts),
        }
    }

    pub fn address(&self) -> u8
        ensures { result ≡ (any_model self.now).address }
    {
        match self {
            AnyMachine::OfFour(m) => m.address(),
            AnyMachine::OfTwelve(m) => m.address(),
            AnyMachine::OfFeeder(m) => m.address(),
        }
    }

    // Runs a batch with the same amount for each component.
    pub fn batch_evenly(&mut self, amount: u32) -> Result<(), Refusal>
        ensures answer { result ≡ even_answer amount (any_model self.old) }
        ensures machine { any_model self.new ≡ even_batched amount (any_model self.old) }
    {
        let address = self.address();
        // an array of `K::COMPONENTS` amounts would need a computed length, which the language lacks
        match self {
            AnyMachine::OfFour(m) => Machine::batch(m, address, &[amount; 4]),
            AnyMachine::OfTwelve(m) => Machine::batch(m, address, &[amount; 12]),
            AnyMachine::OfFeeder(m) => Machine::batch(m, address, &[amount; 1]),
        }
    }
}

impl Segment for AnyMachine {
    ghost machines = { λ a. any_model a ∷ [] };

    fn batch(&mut self, address: u8, amounts: &[u32]) -> Result<(), Refusal> {
        AnyMachine::batch(self, address, amounts)
    }

    fn show(&mut self, burst: &[u8]) -> Said {
        self.answer(burst).into()
    }
}
