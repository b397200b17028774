// Why a text is answered with no table, in an error that can be kept when the text is gone.
ghost use Rattle.std.specs.Prelude.{◌≡◌, Some};
ghost use Rattle.share_report.specs.declared.owned.OwnedShareError.TheVariants.{Refused, OutOfMemory};
ghost use Rattle.share_report.specs.Report.{bad_word};
ghost use Rattle.share_report.specs.Owned.{shown_owned, owned_words, KeepsWord, Keeps};

use crate::error::{Misread, ShareError};
use crate::excerpt::Excerpt;
use std::alloc::{AllocError, AllocFailed};
use std::error::Error;
use std::fmt;
use tariff::Refusal;
use text::WordFault;

// A word that is no number of 32 bits: its place among the words, from 1, the start of it, and why.
#[derive(Clone, Copy, PartialEq, Eq, Debug)]
pub struct OwnedMisread {
    pub place: usize,
    pub word: Excerpt,
    pub fault: WordFault,
}

// Why there is no table: a word is no number, there is no word, or the rules refuse the numbers.
#[derive(Clone, Copy, PartialEq, Eq, Debug)]
pub enum OwnedShareError {
    Misread(OwnedMisread),
    NothingToShare,
    Refused(Refusal),
    OutOfMemory,
}

impl fmt::Display for OwnedMisread {
    ghost output = { λ m. Some (bad_word (shown_owned m)) };

    fn fmt<W: fmt::Write>(&self, f: &mut fmt::Formatter<W>) -> fmt::Result {
        let OwnedMisread { place, word, fault } = *self;
        write!(f, "word {place}, \"{word}\", {fault}")
    }
}

impl fmt::Display for OwnedShareError {
    ghost output = { λ e. Some (owned_words e) };

    fn fmt<W: fmt::Write>(&self, f: &mut fmt::Formatter<W>) -> fmt::Result {
        match *self {
            OwnedShareError::Misread(misread) => write!(f, "share: {misread}"),
            OwnedShareError::NothingToShare => f.write_str(
                "share: word 1 is missing: the pool in cents, and after it the units of each customer",
            ),
            OwnedShareError::Refused(refusal) => write!(f, "share: {refusal}"),
            OwnedShareError::OutOfMemory => f.write_str("memory allocation failed"),
        }
    }
}

impl Error for OwnedShareError {}

impl From<Misread<'_>> for OwnedMisread {
    ghost from_gives = { λ m owned. KeepsWord m owned };

    fn from(misread: Misread<'_>) -> Self {
        let Misread { place, word, fault } = misread;
        let word = Excerpt::of(word);
        OwnedMisread { place, word, fault }
    }
}

impl From<ShareError<'_>> for OwnedShareError {
    ghost from_gives = { λ e owned. Keeps e owned };

    fn from(error: ShareError<'_>) -> Self {
        match error {
            ShareError::Misread(misread) => OwnedShareError::Misread(OwnedMisread::from(misread)),
            ShareError::NothingToShare => OwnedShareError::NothingToShare,
            ShareError::Refused(refusal) => OwnedShareError::Refused(refusal),
            ShareError::OutOfMemory => OwnedShareError::OutOfMemory,
        }
    }
}

impl From<Refusal> for OwnedShareError {
    ghost from_gives = { λ refusal e. e ≡ Refused refusal };

    fn from(refusal: Refusal) -> Self {
        Self::Refused(refusal)
    }
}

impl From<AllocError> for OwnedShareError {
    ghost from_gives = { λ _ e. e ≡ OutOfMemory };

    fn from(_error: AllocError) -> Self {
        Self::OutOfMemory
    }
}

impl<T: Drop> From<AllocFailed<T>> for OwnedShareError {
    ghost from_gives = { λ _ e. e ≡ OutOfMemory };

    fn from(failed: AllocFailed<T>) -> Self {
        Self::from(AllocError::from(failed))
    }
}
