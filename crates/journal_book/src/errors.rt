// Why a journal is not opened. No generic error enum for several crates: its `From<E>` and
// `From<AllocError>` would overlap.
ghost use Rattle.std.specs.Prelude.{◌≡◌};
ghost use Rattle.journal_book.specs.declared.errors.OpenError.TheVariants.{Refused, OutOfMemory};

use std::alloc::AllocError;
use tariff::Refusal;

#[derive(Clone, Copy, PartialEq, Eq, Debug)]
pub enum OpenError {
    // the book is not opened
    Refused(Refusal),
    // there is no memory for its tables
    OutOfMemory,
}

impl From<Refusal> for OpenError {
    ghost from_gives = { λ r e. e ≡ Refused r };

    fn from(refusal: Refusal) -> OpenError {
        OpenError::Refused(refusal)
    }
}

impl From<AllocError> for OpenError {
    ghost from_gives = { λ _ e. e ≡ OutOfMemory };

    fn from(_fault: AllocError) -> OpenError {
        OpenError::OutOfMemory
    }
}
