// Lines of a script: words, and numbers in base ten.
#![tactic(auto)]

ghost use Rattle.std.specs.Prelude.{◌≡◌, ℕ, ◌≤◌, List, map, length, IfSome, Some, None, slice_get};
ghost use Rattle.std.specs.Iterator.{YieldsFirstRef, at_most};
ghost use Rattle.std.specs.Option.{option_map, option_copied};
ghost use Rattle.std.specs.Str.{bytes_eq};
ghost use Rattle.script.specs.declared.LineFault.TheVariants.{Memory};
ghost use Rattle.script.specs.Faults.{Listed};
ghost use Rattle.script.specs.Words.{is_blank, words};
ghost use Rattle.script.specs.Numerals.{number_in, numbers_in};

use std::alloc::{AllocError, AllocFailed, Global};
use std::marker::Model;

fn is_blank(byte: u8) -> bool
    ensures { result ≡ is_blank byte }
{
    matches!(byte, b' ' | 9..=13)
}

// The words of a line, from left to right.
#[derive(Drop)]
pub struct Words<'a> {
    left: &'a [u8],
}

// Words are seen as the bytes that they are taken from.
impl<'a> Model for Words<'a> {
    ghost Value = { List ℕ };

    ghost view = { λ w. w.left.now };
}

impl<'a> Words<'a> {
    pub fn of(line: &'a [u8]) -> Words<'a>
        ensures { result ≡ line.now }
    {
        Words { left: line }
    }

    // The next word, which is left in its place.
    pub fn peek(&self) -> Option<&'a [u8]>
        ensures { option_copied result ≡ slice_get (words self.now) 0 }
    {
        Words::of(self.rest()).next()
    }

    // What is behind the words that were taken.
    pub fn rest(&self) -> &'a [u8]
        ensures { result.now ≡ self.now }
    {
        self.left
    }
}

impl<'a> Iterator for Words<'a> {
    type Item = &'a [u8];

    ghost next_gives = { YieldsFirstRef words };

    ghost remaining = { λ w. at_most (length w) };

    fn next(&mut self) -> Option<&'a [u8]> {
        let line = self.rest();
        let start = line.iter().position(|byte| !is_blank(*byte))?;
        let tail = &line[start..];
        let end = tail
            .iter()
            .position(|byte| is_blank(*byte))
            .unwrap_or(tail.len());
        let (word, behind) = tail.split_at(end);
        *self = Words::of(behind);
        Some(word)
    }
}

// Whether a word is this text.
pub fn says(word: &[u8], text: &str) -> bool
    ensures { result ≡ bytes_eq word.now text.now }
{
    word == text.as_bytes()
}

// The number that a word says, if it is one and does not pass the limit.
pub fn number(word: &[u8], limit: u32) -> Option<u32>
    ensures value { result ≡ number_in limit word.now }
    ensures within { IfSome result (λ n. n ≤ limit) }
{
    if word.is_empty() {
        return None;
    }
    let mut value: u64 = 0;
    for byte in word {
        if !byte.is_ascii_digit() {
            return None;
        }
        value = value * 10 + u64::from(*byte - b'0');
        if value > u64::from(limit) {
            return None;
        }
    }
    Some(value as u32)
}

// A type of numbers that a line can list. Each has its own `from_word`: one body for all would
// have to ask for a way from a `u32` to any such type, with a law, which is longer than both.
pub trait Numeral: Sized {
    ghost limit: { ℕ };

    ghost value: { Self → ℕ };

    fn from_word(word: &[u8]) -> Option<Self>
        ensures { option_map value result ≡ number_in limit word.now };
}

impl Numeral for u8 {
    ghost limit = { 255 };

    ghost value = { λ n. n };

    fn from_word(word: &[u8]) -> Option<u8> {
        number(word, 255).map(|n| n as u8)
    }
}

impl Numeral for u32 {
    ghost limit = { 4294967295 };

    ghost value = { λ n. n };

    fn from_word(word: &[u8]) -> Option<u32> {
        number(word, u32::MAX)
    }
}

// Why a line could not be read.
#[derive(Clone, Copy, Debug, PartialEq, Eq)]
pub enum LineFault {
    NotUnderstood,
    Memory,
}

impl From<AllocError> for LineFault {
    ghost from_gives = { λ _ r. r ≡ Memory };

    fn from(_e: AllocError) -> LineFault {
        LineFault::Memory
    }
}

impl<T: Drop> From<AllocFailed<T>> for LineFault {
    ghost from_gives = { λ _ r. r ≡ Memory };

    fn from(_e: AllocFailed<T>) -> LineFault {
        LineFault::Memory
    }
}

// The numbers that a line lists, none left out and nothing between them.
pub fn numbers<T: Numeral + Drop>(heap: Global, line: &[u8]) -> Result<Vec<T>, LineFault>
    ensures { Listed result (λ v. numbers_in T.Numeral.limit (words line.now) ≡ Some (map T.Numeral.value v.items)) (numbers_in T.Numeral.limit (words line.now) ≡ None) }
{
    let mut all = Vec::new(heap);
    for word in Words::of(line) {
        all.push(T::from_word(word).ok_or(LineFault::NotUnderstood)?)?;
    }
    Ok(all)
}
