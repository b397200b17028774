// Why a text is answered with no table, in the text's own bytes, and the line that says so.
ghost use Rattle.std.specs.Prelude.{◌≡◌, Some};
ghost use Rattle.share_report.specs.declared.error.ShareError.TheVariants.{Refused, OutOfMemory};
ghost use Rattle.share_report.specs.Report.{bad_word};
ghost use Rattle.share_report.specs.Numbers.{shown_bad};
ghost use Rattle.share_report.specs.Errors.{error_words};
ghost use Rattle.share_report.specs.Owned.{owned_line};

use crate::owned::{OwnedMisread, OwnedShareError};
use std::alloc::{AllocError, AllocFailed};
use std::error::Error;
use std::fmt;
use tariff::Refusal;
use text::WordFault;

// A word that is no number of 32 bits: its place among the words, from 1, the word, and why.
#[derive(Clone, Copy, PartialEq, Eq, Debug)]
pub struct Misread<'a> {
    pub place: usize,
    pub word: &'a [u8],
    pub fault: WordFault,
}

// Why there is no table: a word is no number, there is no word, or the rules refuse the numbers.
#[derive(Clone, Copy, PartialEq, Eq, Debug)]
pub enum ShareError<'a> {
    Misread(Misread<'a>),
    NothingToShare,
    Refused(Refusal),
    OutOfMemory,
}

impl fmt::Display for Misread<'_> {
    ghost output = { λ m. Some (bad_word (shown_bad m)) };

    fn fmt<W: fmt::Write>(&self, f: &mut fmt::Formatter<W>) -> fmt::Result {
        let misread = OwnedMisread::from(*self);
        write!(f, "{misread}")
    }
}

impl fmt::Display for ShareError<'_> {
    ghost output = { λ e. Some (error_words e) };

    fn fmt<W: fmt::Write>(&self, f: &mut fmt::Formatter<W>) -> fmt::Result {
        let error = OwnedShareError::from(*self);
        write!(f, "{error}")
    }
}

impl Error for ShareError<'_> {}

// An error as the line that the program prints of it.
#[derive(Clone, Copy, PartialEq, Eq, Debug)]
pub struct ErrorLine(pub OwnedShareError);

impl fmt::Display for ErrorLine {
    ghost output = { λ line. Some (owned_line line.0) };

    fn fmt<W: fmt::Write>(&self, f: &mut fmt::Formatter<W>) -> fmt::Result {
        let ErrorLine(error) = *self;
        writeln!(f, "{error}")
    }
}

impl From<Refusal> for ShareError<'_> {
    ghost from_gives = { λ refusal e. e ≡ Refused refusal };

    fn from(refusal: Refusal) -> Self {
        Self::Refused(refusal)
    }
}

impl From<AllocError> for ShareError<'_> {
    ghost from_gives = { λ _ e. e ≡ OutOfMemory };

    fn from(_error: AllocError) -> Self {
        Self::OutOfMemory
    }
}

impl<T: Drop> From<AllocFailed<T>> for ShareError<'_> {
    ghost from_gives = { λ _ e. e ≡ OutOfMemory };

    fn from(failed: AllocFailed<T>) -> Self {
        Self::from(AllocError::from(failed))
    }
}
