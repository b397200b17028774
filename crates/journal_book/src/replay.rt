// A journal replays a list of calls. Why `down` and `running` are two parameters: see
// `Journal::make`.
ghost use Rattle.std.specs.Prelude.{◌≡◌, List, ◌++◌, length};
ghost use Rattle.sharing.specs.Rule.{Lawful};
ghost use Rattle.book_rules.specs.Laws.{LawsOfALife};
ghost use Rattle.book_rules.specs.Run.{State, Call, Offered, final};
ghost use Rattle.journal_rules.specs.Journal.{calls_of};
ghost use Rattle.journal_rules.specs.LawsOf.{LawsOf};
ghost use Rattle.journal_book.specs.Replay.{Tells, Replays};
ghost use Rattle.journal_book.specs.Shown.{rules_for, shown_journal};

use crate::states::Journal;
use crate::texts::push_reply;
use journal_line::Command;
use line_rows::MOST_LINE_BYTES;
use sharing::SharingRule;
use std::alloc::AllocError;

impl Journal {
    // Makes one call, and appends the text of the answer.
    fn tell<D: SharingRule, R: SharingRule>(
        self,
        down: &mut D,
        running: &mut R,
        command: Command,
        out: &mut [u8],
        text: &mut Vec<u8>,
    ) -> (Journal, Result<(), AllocError>)
        ensures answers { (ld : Lawful (D.meaning down.old)) (lr : Lawful (R.meaning running.old)) → Tells (rules_for (D.meaning down.old) (R.meaning running.old) ld lr) (length out.old) command (shown_journal self) (shown_journal result.0) text.old.items text.new.items result.1 }
        ensures lawful { Lawful (D.meaning down.old) × Lawful (R.meaning running.old) }
        ensures means { (D.meaning down.new ≡ D.meaning down.old) × (R.meaning running.new ≡ R.meaning running.old) }
    {
        let (next, made) = self.make(down, running, command, out);
        // no `?` here: the journal is moved, and goes back beside the error
        let told = push_reply(text, made, out);
        (next, told)
    }

    // Makes a list of calls, and appends one text for each answer.
    pub fn replay<D: SharingRule, R: SharingRule>(
        self,
        down: &mut D,
        running: &mut R,
        commands: &[Command],
        text: &mut Vec<u8>,
    ) -> (Journal, Result<(), AllocError>)
        ensures answers { (ld : Lawful (D.meaning down.old)) (lr : Lawful (R.meaning running.old)) → Replays (rules_for (D.meaning down.old) (R.meaning running.old) ld lr) (shown_journal self) commands.now (shown_journal result.0) text.old.items text.new.items result.1 }
        ensures life { (ld : Lawful (D.meaning down.old)) (lr : Lawful (R.meaning running.old)) (s : State) (before : List Call) → LawsOfALife s → Offered s before → final s before ≡ (shown_journal self).state → LawsOf s (before ++ calls_of (rules_for (D.meaning down.old) (R.meaning running.old) ld lr) (shown_journal self) commands.now) }
        ensures lawful { Lawful (D.meaning down.old) × Lawful (R.meaning running.old) }
        ensures means { (D.meaning down.new ≡ D.meaning down.old) × (R.meaning running.new ≡ R.meaning running.old) }
    {
        // room for the rows of any bill: `put_bill` writes into a buffer of the caller's
        let mut out = [0u8; MOST_LINE_BYTES];
        let mut journal = self;
        for command in commands {
            let (next, told) = journal.tell(down, running, *command, &mut out, text);
            journal = next;
            if told.is_err() {
                // no `?`: the journal goes back beside the error
                return (journal, told);
            }
        }
        (journal, Ok(()))
    }
}
