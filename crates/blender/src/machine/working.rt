ghost use Rattle.std.specs.Prelude.{◌≡◌, ◌+◌, ◌-◌, ◌%◌, ◌≤◌, length, slice_index, slice_set, IfSome};
ghost use Rattle.terms.specs.Addresses.{number};
ghost use Rattle.commands.specs.Meaning.{said};
ghost use Rattle.blender.specs.Batches.{turn_bits, filled, all_within, batch_answer, batched};
ghost use Rattle.blender.specs.Machines.{model, new_model, answer_of, obeyed, concerns, reply, after};

use super::super::modelled::Modelled;
use super::super::settings::Settings;
use super::super::tally::Tally;
use super::Machine;
use commands::command::Command;
use kinds::Kind;
use mlan::burst::Burst;
use rows::rows_in;
use terms::address::Address;
use terms::{Counts, Function, Refusal, Tag, Unit};
use writing::answer::Answer;

impl<K: Kind> Machine<K> {
    // A new machine: all zero, and the mark down.
    pub fn new(address: Address, unit: Unit, kind: K) -> Machine<K>
        ensures { model K.Kind.facts result ≡ new_model K.Kind.facts (number address) unit }
    {
        let counts = Counts {
            totals: [0; 12],
            cycles: 0,
            flags: 0,
        };
        Machine {
            address: Modelled::new(address),
            unit,
            tally: Modelled::new(Tally { counts }),
            mark: false,
            settings: Settings::new(),
            kind,
        }
    }

    // The number of the machine's address.
    pub fn address(&self) -> u8
        ensures { result ≡ (model K.Kind.facts self.now).address }
    {
        self.address.get().value
    }

    // Whether a burst concerns the machine: it begins with its address, or with 0.
    pub fn hears(&self, burst: &[u8]) -> bool
        ensures { result ≡ concerns (model K.Kind.facts self.now) burst.now }
    {
        match burst {
            [first, ..] => *first == self.address() || *first == 0,
            [] => false,
        }
    }

    fn answer_to(&self, command: Command<'_>) -> Answer
        ensures { result ≡ answer_of (model K.Kind.facts self.now) (said command.entry) }
    {
        let unit = self.unit;
        let software = K::SOFTWARE;
        match command {
            Command::GetTotals { reset } => Answer::Totals {
                reset,
                unit,
                software,
                counts: self.tally.get().counts,
            },
            Command::GetSettings => Answer::Settings {
                unit,
                mark: self.mark,
                software,
                sheet: self.settings.sheet,
            },
            Command::GetType => Answer::SystemType { unit, software },
            Command::GetFunctions => Answer::Functions {
                f130: self.settings.f130,
                f82: self.settings.f82,
            },
            Command::GetVersion => Answer::Version {
                characters: K::VERSION,
            },
            Command::GetUnits => Answer::DisplayUnits {
                units: self.settings.units,
            },
            _ => Answer::Ack,
        }
    }

    fn obey(&mut self, command: Command<'_>)
        ensures { model K.Kind.facts self.new ≡ obeyed (model K.Kind.facts self.old) (said command.entry) }
    {
        match command {
            Command::GetTotals { reset: true } => {
                let mut counts = self.tally.get().counts;
                counts.flags = 0;
                self.tally = Modelled::new(Tally { counts });
                self.mark = false;
            }
            Command::SetSettings(sheet) => {
                self.settings.sheet = sheet.with_rows(rows_in(sheet.rows));
            }
            Command::SetFunction { function, value } => match function {
                Function::F82 => self.settings.f82 = value,
                Function::F130 => self.settings.f130 = value,
            },
            Command::SetUnits { units } => self.settings.units = units,
            Command::SetKeypad { flag } => self.settings.keypad = flag,
            Command::SetTag { tag, .. } => match tag {
                Tag::Recipe(value) => self.settings.sheet.recipe = value,
                Tag::WorkOrder(value) => self.settings.sheet.order = value,
                Tag::Operator(value) => self.settings.sheet.operator = value,
            },
            _ => {}
        }
    }

    // Judges a burst and obeys it, and answers the reply, if the burst concerns the machine.
    pub fn answer(&mut self, burst: &[u8]) -> Option<Burst>
        ensures reply { result ≡ reply (model K.Kind.facts self.old) burst.now }
        ensures fits { IfSome result (λ r. (1 ≤ length r) × (length r ≤ 64)) }
        ensures machine { model K.Kind.facts self.new ≡ after (model K.Kind.facts self.old) burst.now }
    {
        if !self.hears(burst) {
            return None;
        }
        let answer = match Command::read::<K>(burst) {
            Ok(command) => {
                let answer = self.answer_to(command);
                self.obey(command);
                answer
            }
            Err(_) => Answer::Nak,
        };
        Some(answer.burst(self.address()))
    }

    // Judges a burst and obeys it, as `answer` does, where nobody will hear the reply.
    pub fn heed(&mut self, burst: &[u8])
        ensures { model K.Kind.facts self.new ≡ after (model K.Kind.facts self.old) burst.now }
    {
        if !self.hears(burst) {
            return;
        }
        if let Ok(command) = Command::read::<K>(burst) {
            self.obey(command);
        }
    }

    // Runs a batch on the machine with this address: an amount for each component.
    pub fn batch(&mut self, address: u8, amounts: &[u32]) -> Result<(), Refusal>
        ensures answer { result ≡ batch_answer address amounts.now (model K.Kind.facts self.old) }
        ensures machine { model K.Kind.facts self.new ≡ batched address amounts.now (model K.Kind.facts self.old) }
    {
        Address::new(address)?;
        if address != self.address() {
            return Err(Refusal::NoMachine);
        }
        if amounts.len() != K::COMPONENTS {
            return Err(Refusal::WrongCount);
        }
        if !all_within(amounts) {
            return Err(Refusal::TooLarge);
        }
        self.fill(amounts);
        Ok(())
    }

    fn fill(&mut self, amounts: &[u32])
        requires { length amounts.now ≡ K.Kind.facts.components }
        ensures { model K.Kind.facts self.new ≡ filled (model K.Kind.facts self.old) amounts.now }
    {
        let mut counts = self.tally.get().counts;
        let mut totals = counts.totals;
        let mut flags = counts.flags;
        for (i, amount) in amounts.iter().enumerate() {
            if let Some(place) = K::place(i + 1) {
                flags |= add_at(&mut totals, place, *amount);
            }
        }
        counts.totals = totals;
        counts.flags = flags;
        counts.cycles = counts.cycles.wrapping_add(1);
        self.tally = Modelled::new(Tally { counts });
        self.mark = true;
    }
}

// Adds an amount at a place; answers the flag bits of a total that passes its end.
fn add_at(totals: &mut [u32; 12], place: usize, amount: u32) -> u16
    requires { (1 ≤ place) × (place ≤ 12) }
    ensures totals { totals.new ≡ slice_set totals.old (place - 1) ((slice_index totals.old (place - 1) + amount) % 4294967296) }
    ensures flags { result ≡ turn_bits (slice_index totals.old (place - 1) + amount) place }
{
    let (sum, over) = totals[place - 1].overflowing_add(amount);
    totals[place - 1] = sum;
    if over { 1 | (1 << place) } else { 0 }
}

fn all_within(amounts: &[u32]) -> bool
    ensures { result ≡ all_within amounts.now }
{
    amounts.iter().all(|amount| *amount <= 1_000_000)
}
