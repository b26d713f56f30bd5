// The test stand: plays the lines of its script.
#![tactic(auto)]

ghost use Rattle.std.specs.Prelude.{◌≡◌, Some, None, IfOk, MatchResult};
ghost use Rattle.std.specs.Option.{option_map};
ghost use Rattle.blender.specs.Batches.{batched};
ghost use Rattle.blender.specs.Machines.{after};
ghost use Rattle.stand_script.specs.Lines.{machine, asked};
ghost use Rattle.stand_play.specs.Plays.{hung, hang_result, played, batch_event, shown_event, told};

use rack::AnyMachine;
use script::LineFault;
use stand_script::action::Action;
use stand_script::read::read;
use stand_text::Event;
use std::alloc::{AllocError, Global};
use terms::Refusal;
use terms::address::Address;
use wording::plate::Plate;

// A stand on which one machine can hang.
#[derive(Drop)]
pub struct Stand {
    machine: Option<AnyMachine>,
}

impl Stand {
    pub fn new() -> Stand
        ensures { hung result ≡ None }
    {
        Stand { machine: None }
    }

    // Plays one line of the script, the number of which is given. Without memory
    // to read the line, the stand stays as it is.
    pub fn play(
        &mut self,
        heap: Global,
        line: &[u8],
        number: u64,
    ) -> Result<Option<Event>, AllocError>
        ensures { MatchResult result
            (λ e. (e ≡ told number (asked line.now) (hung self.old)) × (hung self.new ≡ played (asked line.now) (hung self.old)))
            (λ _. hung self.new ≡ hung self.old) }
    {
        match read(heap, line) {
            Ok(None) => Ok(None),
            // there is room for one machine
            Ok(Some(Action::Hang(_))) if self.machine.is_some() => {
                Ok(Some(Event::NotUnderstood { line: number }))
            }
            Ok(Some(Action::Hang(plate))) => Ok(Some(Event::Hung(self.hang(plate)))),
            Ok(Some(Action::Run { address, amounts })) => Ok(Some(self.run(address, &amounts))),
            Ok(Some(Action::Show { bytes })) => Ok(Some(self.show(&bytes))),
            Err(LineFault::NotUnderstood) => Ok(Some(Event::NotUnderstood { line: number })),
            Err(LineFault::Memory) => Err(AllocError),
        }
    }

    fn hang(&mut self, plate: Plate) -> Result<Plate, Refusal>
        ensures answer { result ≡ hang_result plate }
        ensures stand { hung self.old ≡ None → hung self.new ≡ played (machine plate) None }
    {
        let at = Address::new(plate.address)?;
        self.machine = Some(AnyMachine::new(plate.kind, at, plate.unit));
        Ok(plate)
    }

    fn run(&mut self, address: u8, amounts: &[u32]) -> Event
        ensures event { result ≡ batch_event address amounts.now (hung self.old) }
        ensures stand { hung self.new ≡ option_map (batched address amounts.now) (hung self.old) }
    {
        Event::Batch(match &mut self.machine {
            Some(machine) => machine.batch(address, amounts),
            None => Address::new(address).and(Err(Refusal::NoMachine)),
        })
    }

    fn show(&mut self, burst: &[u8]) -> Event
        ensures event { result ≡ shown_event burst.now (hung self.old) }
        ensures stand { hung self.new ≡ option_map (λ m. after m burst.now) (hung self.old) }
    {
        // a match, since a proof knows nothing of what a closure does behind a `&mut`
        Event::Reply(match &mut self.machine {
            Some(machine) => machine.answer(burst),
            None => None,
        })
    }
}

// Plays one line, and prints what came of it.
pub fn tell(rt: &HostRuntime, stand: &mut Stand, line: &[u8], number: u64) -> anyhow::Result<()>
    ensures { IfOk result (λ _. hung stand.new ≡ played (asked line.now) (hung stand.old)) }
{
    // a match and no `?`, which gets no proof yet where the value may hold a `Burst`
    match stand.play(rt.alloc(), line, number) {
        Ok(Some(event)) => println!(rt; "{event}")?,
        Ok(None) => {}
        Err(fault) => return Err(fault.into()),
    }
    Ok(())
}
