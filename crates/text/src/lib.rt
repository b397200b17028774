// Plain text: its words, and the numbers that they write.
#![tactic(auto)]

ghost use Rattle.std.specs.Prelude.{◌≡◌, ◌^◌, true, if◌then◌else◌, Some, None, nat_lt};
ghost use Rattle.std.specs.Iterator.{item_count};
ghost use Rattle.std.specs.Char.{is_ascii_digit};
ghost use Rattle.std.specs.List.{list_all};
ghost use Rattle.text.specs.Words.{words, value_from, number_of, fault_words, Next};

use std::error::Error;
use std::fmt;

// Why a word is no number of 32 bits.
#[derive(Clone, Copy, PartialEq, Eq, Debug)]
pub enum WordFault {
    NotANumber,
    TooLarge,
}

impl fmt::Display for WordFault {
    ghost output = { λ f. Some (fault_words f) };

    fn fmt<W: fmt::Write>(&self, f: &mut fmt::Formatter<W>) -> fmt::Result {
        match self {
            WordFault::NotANumber => f.write_str("is not a whole number"),
            WordFault::TooLarge => f.write_str("is above 4294967295"),
        }
    }
}

impl Error for WordFault {}

// The words of a text that are still to come: what stands between its blanks.
#[derive(Drop)]
pub struct Words<'a> {
    rest: &'a [u8],
}

impl<'a> Words<'a> {
    pub fn new(text: &'a [u8]) -> Words<'a>
        ensures { result.rest.now ≡ text.now }
    {
        Words { rest: text }
    }
}

impl<'a> Iterator for Words<'a> {
    type Item = &'a [u8];

    ghost next_gives = { λ before r after. Next r before.rest.now after.rest.now };

    ghost remaining = { item_count (λ s. words s.rest.now) };

    // The next word, or nothing where only blanks are left.
    fn next(&mut self) -> Option<&'a [u8]> {
        let text = self.rest.trim_ascii_start();
        let end = text
            .iter()
            .position(u8::is_ascii_whitespace)
            .unwrap_or(text.len());
        let (word, rest) = text.split_at(end);
        self.rest = rest;
        (!word.is_empty()).then_some(word)
    }
}

// The number that digits write, or nothing where it needs more than 32 bits: the digits behind the
// first that is too many are not looked at.
fn value_of(digits: &[u8]) -> Option<u32>
    requires { list_all is_ascii_digit digits.now ≡ true }
    ensures { result ≡ (if nat_lt (value_from 0 digits.now) (2 ^ 32) then Some (value_from 0 digits.now) else None) }
{
    let mut value: u64 = 0;
    for digit in digits {
        value = 10 * value + u64::from(*digit - b'0');
        if value > u64::from(u32::MAX) {
            return None;
        }
    }
    Some(value as u32)
}

// The number of 32 bits that a word writes in decimal digits and nothing else. (Not by `parse`, which
// goes over a word again as text, and takes longer.)
pub fn number_of(word: &[u8]) -> Result<u32, WordFault>
    ensures { result ≡ number_of word.now }
{
    if word.is_empty() || !word.iter().all(u8::is_ascii_digit) {
        return Err(WordFault::NotANumber);
    }
    value_of(word).ok_or(WordFault::TooLarge)
}
