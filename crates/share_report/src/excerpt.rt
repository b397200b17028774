// The start of a word that is no number, as it is shown again.
ghost use Rattle.std.specs.Prelude.{◌≡◌, ◌<◌, ◌≤◌, ◌-◌, take, drop, replicate, Some};
ghost use Rattle.share_report.specs.Report.{shown_byte, shown_word};

use std::fmt;

// The most bytes of a word that are shown.
const MOST_SHOWN: usize = 40;

// A byte of a word as it is shown again: one outside 32 to 126 as a question mark.
fn shown_byte(b: u8) -> char
    ensures value { result ≡ shown_byte b }
    ensures ascii { result < 128 }
{
    if (b' '..=b'~').contains(&b) {
        char::from(b)
    } else {
        '?'
    }
}

// The first bytes of a word. They are copied and not borrowed, so that an error can be kept when the
// text that it came from is gone; in an array with a length, since a refusal allocates nothing. The bytes
// behind the length are 0, so that excerpts of the same bytes compare equal.
#[derive(Clone, Copy, PartialEq, Eq, Debug)]
pub struct Excerpt {
    bytes: [u8; MOST_SHOWN],
    length: usize,
    ghost few: { length ≤ 40 },
}

impl Excerpt {
    pub fn of(word: &[u8]) -> Excerpt
        ensures shown { take result.length result.bytes ≡ take 40 word.now }
        ensures blank { drop result.length result.bytes ≡ replicate (40 - result.length) 0 }
    {
        let length = word.len().min(MOST_SHOWN);
        let mut bytes = [0; MOST_SHOWN];
        bytes[..length].copy_from_slice(&word[..length]);
        Excerpt { bytes, length }
    }
}

impl fmt::Display for Excerpt {
    ghost output = { λ e. Some (shown_word (take e.length e.bytes)) };

    fn fmt<W: fmt::Write>(&self, f: &mut fmt::Formatter<W>) -> fmt::Result {
        let shown = &self.bytes[..self.length];
        for b in shown {
            f.write_char(shown_byte(*b))?;
        }
        Ok(())
    }
}
