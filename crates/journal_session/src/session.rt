// One line of a journal is answered. Where a line is not answered, there is no `?`: the session is
// moved, and goes back beside the error. Why `down` and `running` are two parameters: see
// `Journal::make`.
ghost use Rattle.std.specs.Prelude.{◌≡◌};
ghost use Rattle.sharing.specs.Rule.{Lawful};
ghost use Rattle.journal_book.specs.Shown.{rules_for};
ghost use Rattle.journal_book.specs.Texts.{refusal_text};
ghost use Rattle.journal_session.specs.Session.{unopened, shown_session, by_opening, by_call, without_end, line_step, Appended, Answers};

use crate::faults::{AnswerError, LineFault};
use crate::states::Session;
use journal_book::{Journal, OpenError, RefusalLine};
use journal_line::{Command, Line, Opening, parse_line};
use sharing::SharingRule;
use std::alloc::Global;
use tariff::Refusal;

// Appends the text of an answer.
fn push(text: &mut Vec<u8>, answer: &[u8]) -> Result<(), AnswerError>
    ensures { Appended text.old.items answer.now text.new.items result }
{
    text.extend_from_slice(answer)?;
    Ok(())
}

// Appends the text of a refused opening.
fn push_refusal(heap: Global, text: &mut Vec<u8>, refusal: Refusal) -> Result<(), AnswerError>
    ensures { Appended text.old.items (refusal_text refusal) text.new.items result }
{
    let line = RefusalLine(refusal);
    let answer = format!(in heap; "{line}")?;
    push(text, answer.as_bytes())
}

// A line as it was read, without its line end.
pub fn without_end(bytes: &[u8]) -> &[u8]
    ensures { result.now ≡ without_end bytes.now }
{
    bytes.strip_suffix(b"\n").unwrap_or(bytes)
}

impl Session {
    // A journal of which no line is read yet.
    pub fn new() -> Session
        ensures { shown_session result ≡ unopened }
    {
        Session::Unopened // no line is read yet
    }

    fn open(
        self,
        heap: Global,
        opening: Opening,
        text: &mut Vec<u8>,
    ) -> (Session, Result<(), AnswerError>)
        ensures { Answers (by_opening (shown_session self) opening) (shown_session self) (shown_session result.0) text.old.items text.new.items result.1 }
    {
        match self {
            Session::Unopened => match Journal::open(heap, opening) {
                Ok(journal) => (Session::Running(journal), push(text, b"open\n")),
                Err(OpenError::Refused(refusal)) => (
                    Session::Refused,
                    push_refusal(heap, text, refusal),
                ),
                Err(OpenError::OutOfMemory) => (Session::Unopened, Err(AnswerError::OutOfMemory)),
            },
            opened => (opened, Err(AnswerError::Line(LineFault::OpenedAgain))),
        }
    }

    fn call<D: SharingRule, R: SharingRule>(
        self,
        down: &mut D,
        running: &mut R,
        command: Command,
        text: &mut Vec<u8>,
    ) -> (Session, Result<(), AnswerError>)
        ensures answers { (ld : Lawful (D.meaning down.old)) (lr : Lawful (R.meaning running.old)) → Answers (by_call (rules_for (D.meaning down.old) (R.meaning running.old) ld lr) (shown_session self) command) (shown_session self) (shown_session result.0) text.old.items text.new.items result.1 }
        ensures means { (D.meaning down.new ≡ D.meaning down.old) × (R.meaning running.new ≡ R.meaning running.old) }
    {
        match self {
            Session::Unopened => (
                Session::Unopened,
                Err(AnswerError::Line(LineFault::NotOpened)),
            ),
            Session::Refused => (Session::Refused, push(text, b"not offered\n")),
            Session::Running(journal) => {
                let (next, told) = journal.replay(down, running, &[command], text);
                (Session::Running(next), told.map_err(AnswerError::from))
            }
        }
    }

    // Answers one line: the text of its answer is appended, or the line is out of form.
    pub fn answer<D: SharingRule, R: SharingRule>(
        self,
        heap: Global,
        down: &mut D,
        running: &mut R,
        line: &[u8],
        text: &mut Vec<u8>,
    ) -> (Session, Result<(), AnswerError>)
        ensures answers { (ld : Lawful (D.meaning down.old)) (lr : Lawful (R.meaning running.old)) → Answers (line_step (rules_for (D.meaning down.old) (R.meaning running.old) ld lr) (shown_session self) line.now) (shown_session self) (shown_session result.0) text.old.items text.new.items result.1 }
        ensures means { (D.meaning down.new ≡ D.meaning down.old) × (R.meaning running.new ≡ R.meaning running.old) }
    {
        match parse_line(line) {
            Ok(Line::Skipped) => (self, Ok(())),
            Ok(Line::Open(opening)) => self.open(heap, opening, text),
            Ok(Line::Call(command)) => self.call(down, running, command, text),
            Err(fault) => (self, Err(AnswerError::Line(LineFault::OutOfForm(fault)))),
        }
    }

    // Ends the journal, and every pass that it still holds.
    pub fn close(self) {
        match self {
            Session::Unopened | Session::Refused => {}
            Session::Running(journal) => journal.close(),
        }
    }
}
