ghost use Rattle.std.specs.Prelude.{◌≡◌, ◌∷◌, Some};
ghost use Rattle.script.specs.Faults.{Listed};
ghost use Rattle.script.specs.Words.{words};
ghost use Rattle.stand_script.specs.Lines.{unknown, asking, machine_by, batch_by, burst_by, by_words, asked};

use super::action::Action;
use script::{LineFault, Numeral, Words, numbers};
use std::alloc::Global;
use wording::plate::Plate;

// A plate, and nothing behind it.
fn read_machine(mut line: Words) -> Result<Action, LineFault>
    ensures { Listed result (λ a. asking (Some a) ≡ machine_by (words line.entry)) (machine_by (words line.entry) ≡ unknown) }
{
    let plate = Plate::read(&mut line).ok_or(LineFault::NotUnderstood)?;
    match line.next() {
        None => Ok(Action::Hang(plate)),
        Some(_) => Err(LineFault::NotUnderstood),
    }
}

// An address, and any number of amounts.
fn read_batch(heap: Global, mut line: Words) -> Result<Action, LineFault>
    ensures { Listed result (λ a. asking (Some a) ≡ batch_by (words line.entry)) (batch_by (words line.entry) ≡ unknown) }
{
    let address = line
        .next()
        .and_then(u8::from_word)
        .ok_or(LineFault::NotUnderstood)?;
    let amounts = numbers(heap, line.rest())?;
    Ok(Action::Run { address, amounts })
}

// One to 64 bytes.
fn read_burst(heap: Global, line: Words) -> Result<Action, LineFault>
    ensures { Listed result (λ a. asking (Some a) ≡ burst_by (words line.entry)) (burst_by (words line.entry) ≡ unknown) }
{
    let bytes: Vec<u8> = numbers(heap, line.rest())?;
    if bytes.is_empty() || bytes.len() > 64 {
        return Err(LineFault::NotUnderstood);
    }
    Ok(Action::Show { bytes })
}

fn read_action(heap: Global, word: &[u8], rest: Words) -> Result<Action, LineFault>
    ensures { Listed result (λ a. asking (Some a) ≡ by_words (word.now ∷ words rest.entry)) (by_words (word.now ∷ words rest.entry) ≡ unknown) }
{
    match word {
        b"machine" => read_machine(rest),
        b"batch" => read_batch(heap, rest),
        b"burst" => read_burst(heap, rest),
        _ => Err(LineFault::NotUnderstood),
    }
}

// What a line asks for, if anything. Without memory nothing is said of the line.
pub fn read(heap: Global, line: &[u8]) -> Result<Option<Action>, LineFault>
    ensures { Listed result (λ a. asking a ≡ asked line.now) (asked line.now ≡ unknown) }
{
    if let [b'#', ..] = line {
        return Ok(None);
    }
    let mut words = Words::of(line);
    let Some(word) = words.next() else {
        return Ok(None);
    };
    Ok(Some(read_action(heap, word, words)?))
}
