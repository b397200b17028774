// A unit file from its text form.
ghost use Rattle.std.specs.Prelude.{◌≡◌, ℕ, ◌+◌, ◌<◌, ◌≤◌, List, ◌∷◌, length, take, Some, Ok, Err, MatchResult, position, ◌==◌};
ghost use Rattle.tariff.specs.Limits.{most_file_bytes};
ghost use Rattle.unit_file.specs.Laws.{ReadBack};
ghost use Rattle.unit_text.specs.Composing.{lines_in, compose_from, composed, Files, Restored, reason_words, fault_words};
ghost use Rattle.unit_text.specs.declared.composing.ComposeError.TheVariants.{Fault as AtFault, OutOfMemory};
ghost use Rattle.unit_text.specs.declared.composing.Reason.TheVariants.{Refused};

use std::alloc::{AllocError, Global};
use std::fmt;
use tariff::Refusal;
use tariff::limits::MOST_FILE_BYTES;
use unit_file::Writer;
use unit_line::parse_line;

// Why a line of a text cannot stand in a file.
#[derive(Clone, Copy, PartialEq, Eq, Debug)]
pub enum Reason {
    // it is not the line of a record
    NotARecord,
    // the record is not written
    Refused(Refusal),
}

// A line of a text, numbered from 1, and what is wrong with it.
#[derive(Clone, Copy, PartialEq, Eq, Debug)]
pub struct Fault {
    pub line: usize,
    pub reason: Reason,
}

// Why no file is made of a text. It is not generic in its fault: `From<E>` and `From<AllocError>`
// would overlap.
#[derive(Debug, Drop)]
pub enum ComposeError {
    Fault(Fault),
    OutOfMemory(AllocError),
}

impl From<Fault> for ComposeError {
    ghost from_gives = { λ fault e. e ≡ AtFault fault };

    fn from(fault: Fault) -> ComposeError {
        Self::Fault(fault)
    }
}

impl From<AllocError> for ComposeError {
    ghost from_gives = { λ error e. e ≡ OutOfMemory error };

    fn from(error: AllocError) -> ComposeError {
        Self::OutOfMemory(error)
    }
}

impl From<Refusal> for Reason {
    ghost from_gives = { λ refusal reason. reason ≡ Refused refusal };

    fn from(refusal: Refusal) -> Reason {
        Self::Refused(refusal)
    }
}

// A refusal that no line of its own has brought about is told at line 1.
impl From<Refusal> for Fault {
    ghost from_gives = { λ refusal fault. fault ≡ record { line = 1; reason = Refused refusal } };

    fn from(refusal: Refusal) -> Fault {
        Fault {
            line: 1,
            reason: Reason::Refused(refusal),
        }
    }
}

// Where the first line ends, if it has its line end.
fn line_end(text: &[u8]) -> Option<usize>
    ensures { result ≡ position (λ b. b == 10) text.now }
{
    text.iter().position(|b| *b == b'\n')
}

// The first line of a text, and what stands behind its line end; the last line may lack it.
fn cut_line<'a>(text: &'a [u8]) -> (&'a [u8], &'a [u8])
    ensures lines { 0 < length text.now → lines_in text.now ≡ result.0.now ∷ lines_in result.1.now }
    ensures shorter { 0 < length text.now → length result.1.now < length text.now }
{
    match line_end(text) {
        Some(end) => (&text[..end], &text[end + 1..]),
        None => (text, &[]),
    }
}

// Puts the record of a line behind what is written.
fn put_line(writer: &mut Writer, out: &mut [u8], text: &[u8]) -> Result<(), Reason>
    requires { (length out.old ≡ most_file_bytes) × (writer.old.place ≤ length out.old) }
    ensures inside { writer.new.place ≤ length out.new }
    ensures file { (line : ℕ) (texts : List (List ℕ)) → MatchResult result
        (λ _. compose_from line (take writer.old.place out.old) (text.now ∷ texts)
        ≡ compose_from (line + 1) (take writer.new.place out.new) texts)
        (λ reason. compose_from line (take writer.old.place out.old) (text.now ∷ texts)
        ≡ Err (record { line = line; reason = reason })) }
{
    let record = parse_line(text).ok_or(Reason::NotARecord)?;
    Ok(writer.put(out, record)?)
}

// Makes the file in a buffer of the most bytes of a file: how many of them it takes.
fn compose_into(text: &[u8], out: &mut [u8]) -> Result<usize, Fault>
    requires { length out.old ≡ most_file_bytes }
    ensures { MatchResult result (λ n. (n ≤ length out.new) × (composed text.now ≡ Ok (take n out.new))) (λ fault. composed text.now ≡ Err fault) }
{
    let mut writer = Writer::new(out)?;
    let mut rest = text;
    let mut line = 0;
    while !rest.is_empty() {
        line += 1;
        let (first, behind) = cut_line(rest);
        // tried: `.map_err(|reason| Fault { line, reason })?`, whose proof did not close
        if let Err(reason) = put_line(&mut writer, out, first) {
            return Err(Fault { line, reason });
        }
        rest = behind;
    }
    Ok(writer.finish(out)?)
}

// The file of a text, or its first fault.
pub fn compose(heap: Global, text: &[u8]) -> Result<Vec<u8>, ComposeError>
    ensures file { Files result (composed text.now) }
    ensures restored { Restored text.now result }
    ensures read_back { ReadBack }
{
    let mut buffer = [0; MOST_FILE_BYTES];
    let size = compose_into(text, &mut buffer)?;
    Ok(Vec::from_slice(heap, &buffer[..size])?)
}

impl fmt::Display for Reason {
    ghost output = { λ r. Some (reason_words r) };

    fn fmt<W: fmt::Write>(&self, f: &mut fmt::Formatter<W>) -> fmt::Result {
        match *self {
            Reason::NotARecord => f.write_str("not the line of a record, or a number is too large"),
            Reason::Refused(refusal) => write!(f, "{refusal}"),
        }
    }
}

// The fault as a user reads it: the line and the reason.
impl fmt::Display for Fault {
    ghost output = { λ f. Some (fault_words f) };

    fn fmt<W: fmt::Write>(&self, f: &mut fmt::Formatter<W>) -> fmt::Result {
        let line = self.line;
        let reason = self.reason;
        write!(f, "line {line}: {reason}")
    }
}
