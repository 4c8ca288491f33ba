// The words of a line, and what they stand for.
ghost use Rattle.std.specs.Prelude.{◌≡◌, ◌≤◌, Ok, length};
ghost use Rattle.std.specs.Char.{is_ascii_digit};
ghost use Rattle.std.specs.List.{list_all};
ghost use Rattle.scripts.specs.Hex.{bytes_value};
ghost use Rattle.scripts.specs.Lines.{word, words};
ghost use Rattle.scripts.specs.Words.{byte_value, is_numeral, number_value, pile_value};

use crate::bytes::bytes_of;
use crate::halt::{Halt, LineFault};
use crate::piles::NamedPile;
use locality::Test;
use std::alloc::Global;

fn has_digits_alone(word: &str) -> bool
    ensures { result ≡ list_all is_ascii_digit word.now }
{
    word.bytes().all(|byte| byte.is_ascii_digit())
}

fn is_decimal(word: &str) -> bool
    ensures { result ≡ is_numeral word.now }
{
    !word.is_empty() && has_digits_alone(word)
}

fn number_of(word: &str) -> Result<u16, LineFault>
    ensures { result ≡ number_value word.now }
{
    if !is_decimal(word) {
        return Err(LineFault::NotDecimal);
    }
    match word.parse::<u16>() {
        Ok(number) => Ok(number),
        Err(_) => Err(LineFault::TooLarge),
    }
}

fn byte_of(word: &str) -> Result<u8, LineFault>
    ensures { result ≡ byte_value word.now }
{
    match u8::try_from(number_of(word)?) {
        Ok(byte) => Ok(byte),
        Err(_) => Err(LineFault::TooLarge),
    }
}

// The same words, with no space in front.
#[inline(never)]
fn past_spaces(line: &str) -> &str
    ensures same { words result.now ≡ words line.now }
    ensures bound { length result.now ≤ length line.now }
{
    line.trim_start_matches(' ')
}

/// The words of a line that have not been read; they have spaces between them.
#[derive(Clone, Copy, Debug)]
pub struct Words<'a> {
    /// The part of the line that they stand in.
    pub rest: &'a str,
}

impl<'a> Words<'a> {
    ghost use Rattle.scripts.specs.Readings.{Reads, ReadsInRoom, TakesFirst, left};

    // The next word, if there is one.
    pub(crate) fn next(&mut self) -> Option<&'a str>
        ensures { TakesFirst result self.new (left self.old) }
    {
        while !self.rest.is_empty() {
            let (word, behind) = self.rest.split_once(' ').unwrap_or((self.rest, ""));
            if !word.is_empty() {
                self.rest = behind;
                return Some(word);
            }
            self.rest = past_spaces(behind);
        }
        None
    }

    // The next word, which has to be there.
    fn wanted(&mut self) -> Result<&'a str, LineFault>
        ensures { Reads (λ w. w.now) result self.new (word Ok (left self.old)) }
    {
        self.next().ok_or(LineFault::TooFewWords)
    }

    pub(crate) fn number(&mut self) -> Result<u16, LineFault>
        ensures { Reads (λ n. n) result self.new (word number_value (left self.old)) }
    {
        number_of(self.wanted()?)
    }

    pub(crate) fn byte(&mut self) -> Result<u8, LineFault>
        ensures { Reads (λ n. n) result self.new (word byte_value (left self.old)) }
    {
        byte_of(self.wanted()?)
    }

    pub(crate) fn pile(&mut self) -> Result<NamedPile<Test>, LineFault>
        ensures { Reads (λ p. p) result self.new (word pile_value (left self.old)) }
    {
        NamedPile::from_word(self.wanted()?).ok_or(LineFault::UnknownPile)
    }

    pub(crate) fn bytes(&mut self, heap: Global) -> Result<Vec<u8>, Halt>
        ensures { ReadsInRoom (λ v. v.items) result self.new (word bytes_value (left self.old)) }
    {
        bytes_of(heap, self.wanted()?)
    }
}
