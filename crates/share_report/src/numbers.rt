// The numbers that a text writes.
ghost use Rattle.share_report.specs.Numbers.{numbers_of};
ghost use Rattle.share_report.specs.Shown.{Reads};

use crate::error::{Misread, ShareError};
use std::alloc::Global;
use text::{Words, number_of};

// The numbers that the words of a text write, or the first word that writes none.
pub fn read_numbers<'a>(heap: Global, text: &'a [u8]) -> Result<Vec<u32>, ShareError<'a>>
    ensures { Reads result (numbers_of text.now) }
{
    let mut numbers = Vec::new(heap);
    for word in Words::new(text) {
        let place = numbers.len() + 1;
        let number = number_of(word).map_err(|fault| ShareError::Misread(Misread {
            place,
            word,
            fault,
        }))?;
        numbers.push(number)?;
    }
    Ok(numbers)
}
