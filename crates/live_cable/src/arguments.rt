ghost use Rattle.std.specs.Prelude.{◌≡◌, [], MatchResult};
ghost use Rattle.rack.specs.Hanging.{racked};
ghost use Rattle.script.specs.Words.{words};
ghost use Rattle.live_cable.specs.Arguments.{Named, Hung, each_amount, hung, all_named, named_from};

use super::fault::ArgumentFault;
use super::machines::LiveCable;
use rack::AnyMachine;
use rack::rack::Rack;
use script::{Numeral, Words, says};
use std::alloc::Global;
use terms::address::Address;
use wording::plate::Plate;

// The one number behind `each`.
fn amount(mut line: Words) -> Result<u32, ArgumentFault>
    ensures { result ≡ each_amount (words line.entry) }
{
    let (Some(word), None) = (line.next(), line.next()) else {
        return Err(ArgumentFault::Each);
    };
    match u32::from_word(word) {
        Some(amount) if amount <= 1_000_000 => Ok(amount),
        Some(_) => Err(ArgumentFault::TooLarge),
        None => Err(ArgumentFault::Each),
    }
}

// Hangs a machine at the right end.
fn hang(machines: &mut Rack, plate: Plate) -> Result<(), ArgumentFault>
    ensures { Hung result (hung (racked machines.old) plate) (racked machines.new) }
{
    let address = Address::new(plate.address).map_err(|_| ArgumentFault::Address)?;
    machines.hang(AnyMachine::new(plate.kind, address, plate.unit))?;
    Ok(())
}

// A cable with at least one machine.
fn finished(machines: Rack, each: Option<u32>) -> Result<LiveCable, ArgumentFault>
    ensures { Named result (all_named (racked machines) each) }
{
    if machines.is_empty() {
        return Err(ArgumentFault::NoMachine);
    }
    Ok(LiveCable { machines, each })
}

// The cable that a command line names: an address, a kind and a unit for each machine, from
// left to right, and then, if totals shall move, `each` and an amount.
pub fn named(heap: Global, line: &[u8]) -> Result<LiveCable, ArgumentFault>
    ensures { Named result (named_from [] (words line.now)) }
{
    let mut machines = Rack::new(heap);
    let mut words = Words::of(line);
    while let Some(word) = words.peek() {
        if says(word, "each") {
            let _each = words.next();
            return finished(machines, Some(amount(words)?));
        }
        let plate = Plate::read(&mut words).ok_or(ArgumentFault::Machine)?;
        hang(&mut machines, plate)?;
    }
    finished(machines, None)
}
