// Why a line of a journal is not answered.
ghost use Rattle.std.specs.Prelude.{◌≡◌, Some};
ghost use Rattle.journal_session.specs.declared.faults.AnswerError.TheVariants.{OutOfMemory as NoMemory};
ghost use Rattle.journal_session.specs.Faults.{line_fault_words, answer_error_words};

use journal_line::Fault;
use std::alloc::AllocError;
use std::error::Error;
use std::fmt;

// Why a line ends a journal.
#[derive(Clone, Copy, PartialEq, Eq, Debug)]
pub enum LineFault {
    // it says nothing
    OutOfForm(Fault),
    // the first call has to be `open`
    NotOpened,
    // and no other
    OpenedAgain,
}

// No generic error enum for several crates: its `From<E>` and `From<AllocError>` would overlap.
#[derive(Clone, Copy, PartialEq, Eq, Debug)]
pub enum AnswerError {
    // the line ends the journal
    Line(LineFault),
    // there is no memory for the call or its answer
    OutOfMemory,
}

impl fmt::Display for LineFault {
    ghost output = { λ f. Some (line_fault_words f) };

    fn fmt<W: fmt::Write>(&self, f: &mut fmt::Formatter<W>) -> fmt::Result {
        match self {
            LineFault::OutOfForm(fault) => write!(f, "{fault}"),
            LineFault::NotOpened => f.write_str("the first call of a journal is open"),
            LineFault::OpenedAgain => f.write_str("a journal is opened only once"),
        }
    }
}

impl fmt::Display for AnswerError {
    ghost output = { λ e. Some (answer_error_words e) };

    fn fmt<W: fmt::Write>(&self, f: &mut fmt::Formatter<W>) -> fmt::Result {
        match self {
            AnswerError::Line(fault) => write!(f, "{fault}"),
            AnswerError::OutOfMemory => f.write_str("memory allocation failed"),
        }
    }
}

impl Error for AnswerError {}

impl From<AllocError> for AnswerError {
    ghost from_gives = { λ _ e. e ≡ NoMemory };

    fn from(_fault: AllocError) -> AnswerError {
        AnswerError::OutOfMemory
    }
}
