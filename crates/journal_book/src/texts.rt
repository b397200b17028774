// What a journal answers, as text.
ghost use Rattle.std.specs.Prelude.{◌≡◌, ◌++◌, [], is_ok, if◌then◌else◌, Some, Err, MatchResult};
ghost use Rattle.std.specs.Option.{option_map};
ghost use Rattle.journal_book.specs.Texts.{refusal_text, fixed_words, reply_words};

use crate::replies::Reply;
use std::alloc::AllocError;
use std::fmt;
use tariff::Refusal;
use tariff::refusal::Told;

// A refusal as the line that a journal answers: its number, and what it tells.
#[derive(Clone, Copy, PartialEq, Eq, Debug)]
pub struct RefusalLine(pub Refusal);

impl fmt::Display for RefusalLine {
    ghost output = { λ line. Some (refusal_text line.0) };

    fn fmt<W: fmt::Write>(&self, f: &mut fmt::Formatter<W>) -> fmt::Result {
        let number = self.0.number();
        match self.0.told() {
            Told::Nothing => writeln!(f, "refused {number}"),
            Told::Row { table, row } => writeln!(f, "refused {number} {table} {row}"),
            Told::AreaAndDay { subzone, day } => writeln!(f, "refused {number} {subzone} {day}"),
            Told::Place(place) => writeln!(f, "refused {number} {place}"),
        }
    }
}

impl Reply {
    // The line of a reply that tells no number: it needs no memory of its own.
    fn fixed_line(self) -> Option<&'static str>
        ensures { option_map (λ line. line.now) result ≡ fixed_words self }
    {
        match self {
            Reply::Removed => Some("removed\n"),
            Reply::HandedIn => Some("handed in\n"),
            Reply::Corrected => Some("corrected\n"),
            Reply::Frozen => Some("frozen\n"),
            Reply::Open => Some("open\n"),
            Reply::NotOffered => Some("not offered\n"),
            _ => None,
        }
    }
}

// The line of a reply; of a bill none, since its rows stand in the buffer.
impl fmt::Display for Reply {
    ghost output = { λ reply. Some (reply_words [] reply) };

    fn fmt<W: fmt::Write>(&self, f: &mut fmt::Formatter<W>) -> fmt::Result {
        match *self {
            Reply::Pass(number) => writeln!(f, "pass {number}"),
            Reply::Row(row) => writeln!(f, "row {row}"),
            Reply::Refused(refusal) => {
                let line = RefusalLine(refusal);
                write!(f, "{line}")
            }
            Reply::NoPass(number) => writeln!(f, "no pass {number}"),
            Reply::Removed
            | Reply::HandedIn
            | Reply::Corrected
            | Reply::Frozen
            | Reply::Open
            | Reply::Billed(_)
            | Reply::NotOffered => f.write_str(self.fixed_line().unwrap_or("")),
        }
    }
}

// Appends the text of a reply, if one was made; the rows of a bill stand at the start of `out`.
pub(crate) fn push_reply(
    text: &mut Vec<u8>,
    made: Result<Reply, AllocError>,
    out: &[u8],
) -> Result<(), AllocError>
    ensures { MatchResult made (λ reply. text.new.items ≡ (if is_ok result then text.old.items ++ reply_words out.now reply else text.old.items)) (λ e. (result ≡ Err e) × (text.new.items ≡ text.old.items)) }
{
    let reply = made?;
    if let Reply::Billed(end) = reply {
        return text.extend_from_slice(out.get(..end).unwrap_or(out));
    }
    if let Some(line) = reply.fixed_line() {
        return text.extend_from_slice(line.as_bytes());
    }
    let heap = *text.allocator();
    let line = format!(in heap; "{reply}")?;
    text.extend_from_slice(line.as_bytes())
}
