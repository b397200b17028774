// The calls of a journal while its book is frozen. Why `down` and `running` are two parameters: see
// `Journal::make`.
ghost use Rattle.std.specs.Prelude.{◌≡◌, ℕ, length};
ghost use Rattle.sharing.specs.Rule.{Lawful, Rule};
ghost use Rattle.book.specs.Shown.{frozen_book};
ghost use Rattle.sharing.specs.declared.names.RuleName.{RuleName as Name};
ghost use Rattle.journal_line.specs.declared.calls.Command.TheVariants.{TakeIn, Reopen, Bill};
ghost use Rattle.journal_rules.specs.Journal.{answered, step_journal};
ghost use Rattle.journal_book.specs.Answers.{Answers};
ghost use Rattle.journal_book.specs.Replies.{reply_for, bill_answer, rows_of, bill_text, out_after};
ghost use Rattle.journal_book.specs.Shown.{rules_for};
ghost use Rattle.journal_book.specs.Stages.{shown_as, frozen_journal};

use crate::passes::take_pass;
use crate::replies::Reply;
use crate::states::{Stage, Tables};
use book::FrozenBook;
use journal_line::Command;
use line_rows::put_bill;
use sharing::{RuleName, SharingRule};

impl Tables {
    fn reopen(&self, book: FrozenBook) -> (Stage, Reply)
        ensures { (rules : Name → Rule) (room : ℕ) → Answers rules room Reopen (frozen_journal book self.now) (shown_as result.0 self.now) result.1 }
    {
        (Stage::Open(book.reopen()), Reply::Open)
    }

    fn take_in(&mut self, book: &FrozenBook, number: u32) -> Reply
        ensures { (rules : Name → Rule) (room : ℕ) → Answers rules room (TakeIn number) (frozen_journal book.now self.old) (frozen_journal book.now self.new) result }
    {
        let Some(pass) = take_pass(&mut self.passes, number) else {
            return Reply::NoPass(number);
        };
        book.take_in(&self.marks, pass)
            .map_or_else(Reply::Refused, |()| Reply::HandedIn)
    }

    // Bills a line by a rule, and writes the rows from the buffer's start on.
    fn bill<R: SharingRule>(
        &self,
        book: &FrozenBook,
        rule: &mut R,
        line: u8,
        out: &mut [u8],
    ) -> Reply
        ensures answers { (name : Name) → result ≡ reply_for (length out.old) (Bill line name) (answered (bill_answer (R.meaning rule.old) line (frozen_book book.now) self.now.units.items self.now.costs.items)) }
        ensures out { out.new ≡ out_after out.old (rows_of line (bill_answer (R.meaning rule.old) line (frozen_book book.now) self.now.units.items self.now.costs.items)) }
        ensures lawful { Lawful (R.meaning rule.old) }
        ensures means { R.meaning rule.new ≡ R.meaning rule.old }
    {
        put_bill(out, 0, rule, line, book, &self.units, &self.costs).map_or_else(
            Reply::Refused,
            Reply::Billed,
        )
    }

    // Bills a line by the rule of a name.
    fn bill_by<D: SharingRule, R: SharingRule>(
        &self,
        book: &FrozenBook,
        down: &mut D,
        running: &mut R,
        line: u8,
        rule: RuleName,
        out: &mut [u8],
    ) -> Reply
        ensures answers { (ld : Lawful (D.meaning down.old)) (lr : Lawful (R.meaning running.old)) → result ≡ reply_for (length out.old) (Bill line rule) (answered (bill_answer (rules_for (D.meaning down.old) (R.meaning running.old) ld lr rule).meaning line (frozen_book book.now) self.now.units.items self.now.costs.items)) }
        ensures out { (ld : Lawful (D.meaning down.old)) (lr : Lawful (R.meaning running.old)) → out.new ≡ out_after out.old (rows_of line (bill_answer (rules_for (D.meaning down.old) (R.meaning running.old) ld lr rule).meaning line (frozen_book book.now) self.now.units.items self.now.costs.items)) }
        ensures lawful { Lawful (D.meaning down.old) × Lawful (R.meaning running.old) }
        ensures means { (D.meaning down.new ≡ D.meaning down.old) × (R.meaning running.new ≡ R.meaning running.old) }
    {
        // the journal bills by any two rules; the name picks one of the caller's
        match rule {
            RuleName::Down => self.bill(book, down, line, out),
            RuleName::Running => self.bill(book, running, line, out),
        }
    }

    // Makes a call on a frozen book.
    pub(crate) fn call_frozen<D: SharingRule, R: SharingRule>(
        &mut self,
        book: FrozenBook,
        down: &mut D,
        running: &mut R,
        command: Command,
        out: &mut [u8],
    ) -> (Stage, Reply)
        ensures answers { (ld : Lawful (D.meaning down.old)) (lr : Lawful (R.meaning running.old)) → Answers (rules_for (D.meaning down.old) (R.meaning running.old) ld lr) (length out.old) command (frozen_journal book self.old) (shown_as result.0 self.new) result.1 }
        ensures out { (ld : Lawful (D.meaning down.old)) (lr : Lawful (R.meaning running.old)) → out.new ≡ out_after out.old (bill_text command (step_journal (rules_for (D.meaning down.old) (R.meaning running.old) ld lr) (frozen_journal book self.old) command).reply) }
        ensures lawful { Lawful (D.meaning down.old) × Lawful (R.meaning running.old) }
        ensures means { (D.meaning down.new ≡ D.meaning down.old) × (R.meaning running.new ≡ R.meaning running.old) }
    {
        let reply = match command {
            Command::Reopen => return self.reopen(book),
            Command::TakeIn { pass } => self.take_in(&book, pass),
            Command::Bill { line, rule } => self.bill_by(&book, down, running, line, rule, out),
            _ => Reply::NotOffered,
        };
        (Stage::Frozen(book), reply)
    }
}
