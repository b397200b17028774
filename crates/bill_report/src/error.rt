// Why there is no bill.
ghost use Rattle.std.specs.Prelude.{◌≡◌, Some};
ghost use Rattle.bill_report.specs.declared.error.BillError.TheVariants.{Refused, OutOfMemory};
ghost use Rattle.bill_report.specs.Failing.{error_words, line_of};

use std::alloc::AllocError;
use std::error::Error;
use std::fmt;
use tariff::Refusal;

// Why there is no bill: the refusal of the file, of its book or of the bill, or want of memory.
#[derive(Clone, Copy, PartialEq, Eq, Debug)]
pub enum BillError {
    Refused(Refusal),
    OutOfMemory,
}

impl fmt::Display for BillError {
    ghost output = { λ e. Some (error_words e) };

    fn fmt<W: fmt::Write>(&self, f: &mut fmt::Formatter<W>) -> fmt::Result {
        match self {
            BillError::Refused(refusal) => write!(f, "bill: {refusal}"),
            BillError::OutOfMemory => f.write_str("memory allocation failed"),
        }
    }
}

impl Error for BillError {}

// An error as the line that the program prints for it, with its line end.
#[derive(Clone, Copy, PartialEq, Eq, Debug)]
pub struct ErrorLine(pub BillError);

impl fmt::Display for ErrorLine {
    ghost output = { λ line. Some (line_of line.0) };

    fn fmt<W: fmt::Write>(&self, f: &mut fmt::Formatter<W>) -> fmt::Result {
        let ErrorLine(error) = *self;
        writeln!(f, "{error}")
    }
}

impl From<Refusal> for BillError {
    ghost from_gives = { λ refusal e. e ≡ Refused refusal };

    fn from(refusal: Refusal) -> Self {
        Self::Refused(refusal)
    }
}

// No enum for the errors of all crates: its `From<E>` and `From<AllocError>` would overlap.
impl From<AllocError> for BillError {
    ghost from_gives = { λ _ e. e ≡ OutOfMemory };

    fn from(_error: AllocError) -> Self {
        Self::OutOfMemory
    }
}
