// journal: makes the calls on standard input, one a line, on a book of its own, and prints the answer
// to each.
#![tactic(auto)]

ghost use Rattle.sharing.specs.Rule.{Lawful};
ghost use Rattle.sharing.specs.Rules.{down, running};
ghost use Rattle.journal_book.specs.Shown.{rules_for};
ghost use Rattle.journal_session.specs.Session.{shown_session, without_end, line_step, Answers};

use journal_session::{AnswerError, LineFault, Session, without_end};
use sharing::{Down, Running};
use std::alloc::Global;
use std::io;
use std::io::{BufRead, BufReader, Write};
use std::process::ExitCode;

// Why a journal ends before its input does.
#[derive(Drop)]
enum Stop {
    // the line of this number is out of form
    OutOfForm { number: u64, fault: LineFault },
    // a line is not read, or its answer not made or printed
    Failed(anyhow::Error),
}

impl From<io::Error> for Stop {
    fn from(fault: io::Error) -> Stop {
        Stop::Failed(fault.into())
    }
}

// The answer to a line as it was read.
pub fn answer_to(
    session: Session,
    heap: Global,
    line: &[u8],
    text: &mut Vec<u8>,
) -> (Session, Result<(), AnswerError>)
    ensures { (ld : Lawful down) (lr : Lawful running) → Answers (line_step (rules_for down running ld lr) (shown_session session) (without_end line.now)) (shown_session session) (shown_session result.0) text.old.items text.new.items result.1 }
{
    session.answer(heap, &mut Down, &mut Running, without_end(line), text)
}

// Prints what the line of a number was answered.
fn print_answer(
    rt: &HostRuntime,
    number: u64,
    text: &[u8],
    told: Result<(), AnswerError>,
) -> Result<(), Stop> {
    match told {
        Ok(()) => Ok(rt.stdout().write_all(text)?),
        Err(AnswerError::Line(fault)) => Err(Stop::OutOfForm { number, fault }),
        Err(fault) => Err(Stop::Failed(fault.into())),
    }
}

// The next line of the input, or none at its end.
fn next_line<B: BufRead>(heap: Global, input: &mut B) -> io::Result<Option<Vec<u8>>> {
    let mut line = Vec::new(heap);
    let size = input.read_until(b'\n', &mut line)?;
    Ok((size > 0).then_some(line))
}

// Answers line by line up to the end of the input, or to the first line that is not answered.
fn answer_lines<B: BufRead>(
    rt: &HostRuntime,
    input: &mut B,
    mut session: Session,
) -> (Session, Result<(), Stop>) {
    // a range, since a loop that reads input needs a count to end
    for number in 1..u64::MAX {
        let line = match next_line(rt.alloc(), input) {
            Ok(Some(line)) => line,
            Ok(None) => break,
            // no `?`: the session goes back beside the error
            Err(fault) => return (session, Err(fault.into())),
        };
        let mut text = Vec::new(rt.alloc());
        let (next, told) = answer_to(session, rt.alloc(), &line, &mut text);
        session = next;
        let printed = print_answer(rt, number, &text, told);
        if printed.is_err() {
            return (session, printed);
        }
    }
    (session, Ok(()))
}

fn run(rt: &HostRuntime) -> Result<(), Stop> {
    let mut input = BufReader::new(rt.alloc(), rt.stdin())?;
    let (session, done) = answer_lines(rt, &mut input, Session::new());
    session.close();
    done
}

fn main(rt: HostRuntime) -> anyhow::Result<ExitCode> {
    match run(&rt) {
        Ok(()) => Ok(ExitCode::SUCCESS),
        Err(Stop::OutOfForm { number, fault }) => {
            eprintln!(rt; "line {number}: {fault}")?;
            Ok(ExitCode::FAILURE)
        }
        Err(Stop::Failed(fault)) => Err(fault),
    }
}
