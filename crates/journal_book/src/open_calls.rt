// The calls of a journal while its book is open.
ghost use Rattle.std.specs.Prelude.{◌≡◌, ℕ};
ghost use Rattle.sharing.specs.Rule.{Rule};
ghost use Rattle.sharing.specs.declared.names.RuleName.{RuleName};
ghost use Rattle.journal_line.specs.declared.calls.Command.TheVariants.{Admit, Remove, HandIn, Post, Correct, Cost, Freeze};
ghost use Rattle.journal_book.specs.Answers.{Answers, Leaves};
ghost use Rattle.journal_book.specs.Stages.{shown_as, open_journal};

use crate::passes::{held_pass, take_pass};
use crate::replies::Reply;
use crate::states::{Stage, Tables};
use book::OpenBook;
use journal_line::Command;
use std::alloc::AllocError;
use tariff::{CostRow, UnitRow};

impl Tables {
    // Makes a place for the pass first, so that none is given for which there is no memory.
    fn admit(&mut self, book: &mut OpenBook, contributor: usize) -> Result<Reply, AllocError>
        ensures { (rules : RuleName → Rule) (room : ℕ) → Leaves rules room (Admit contributor) (open_journal book.old self.old) (open_journal book.new self.new) result }
    {
        self.passes.reserve(1)?;
        // a match, since its first arm also keeps the pass
        match book.admit(&mut self.marks, contributor) {
            Ok(pass) => {
                let number = pass.number();
                self.passes.push_reserved(Some(pass));
                Ok(Reply::Pass(number))
            }
            Err(refusal) => Ok(Reply::Refused(refusal)),
        }
    }

    fn remove(&mut self, book: &OpenBook, contributor: usize) -> Reply
        ensures { (rules : RuleName → Rule) (room : ℕ) → Answers rules room (Remove contributor) (open_journal book.now self.old) (open_journal book.now self.new) result }
    {
        book.remove(&mut self.marks, contributor)
            .map_or_else(Reply::Refused, |()| Reply::Removed)
    }

    fn hand_in(&mut self, book: &OpenBook, number: u32) -> Reply
        ensures { (rules : RuleName → Rule) (room : ℕ) → Answers rules room (HandIn number) (open_journal book.now self.old) (open_journal book.now self.new) result }
    {
        let Some(pass) = take_pass(&mut self.passes, number) else {
            return Reply::NoPass(number);
        };
        book.hand_in(&mut self.marks, pass)
            .map_or_else(Reply::Refused, |()| Reply::HandedIn)
    }

    fn post(&mut self, book: &mut OpenBook, number: u32, row: UnitRow) -> Reply
        ensures { (rules : RuleName → Rule) (room : ℕ) → Answers rules room (Post number row) (open_journal book.old self.old) (open_journal book.new self.new) result }
    {
        let Some(pass) = held_pass(&self.passes, number) else {
            return Reply::NoPass(number);
        };
        book.post(&mut self.units, &self.marks, pass, row)
            .map_or_else(Reply::Refused, Reply::Row)
    }

    fn add_cost(&mut self, book: &mut OpenBook, number: u32, row: CostRow) -> Reply
        ensures { (rules : RuleName → Rule) (room : ℕ) → Answers rules room (Cost number row) (open_journal book.old self.old) (open_journal book.new self.new) result }
    {
        let Some(pass) = held_pass(&self.passes, number) else {
            return Reply::NoPass(number);
        };
        book.add_cost(&mut self.costs, &self.marks, pass, row)
            .map_or_else(Reply::Refused, Reply::Row)
    }

    fn correct(&mut self, book: &OpenBook, number: u32, row: usize, quantity: u32) -> Reply
        ensures { (rules : RuleName → Rule) (room : ℕ) → Answers rules room (Correct number row quantity) (open_journal book.now self.old) (open_journal book.now self.new) result }
    {
        let Some(pass) = held_pass(&self.passes, number) else {
            return Reply::NoPass(number);
        };
        book.correct(&mut self.units, &self.marks, pass, row, quantity)
            .map_or_else(Reply::Refused, |()| Reply::Corrected)
    }

    fn freeze(&self, book: OpenBook) -> (Stage, Reply)
        ensures { (rules : RuleName → Rule) (room : ℕ) → Answers rules room Freeze (open_journal book self.now) (shown_as result.0 self.now) result.1 }
    {
        // a match, since either arm has a book of its own state
        match book.freeze(&self.marks) {
            Ok(frozen) => (Stage::Frozen(frozen), Reply::Frozen),
            Err((open, refusal)) => (Stage::Open(open), Reply::Refused(refusal)),
        }
    }

    // Makes a call on an open book.
    pub(crate) fn call_open(
        &mut self,
        mut book: OpenBook,
        command: Command,
    ) -> (Stage, Result<Reply, AllocError>)
        ensures { (rules : RuleName → Rule) (room : ℕ) → Leaves rules room command (open_journal book self.old) (shown_as result.0 self.new) result.1 }
    {
        let reply = match command {
            Command::Admit { contributor } => {
                let reply = self.admit(&mut book, contributor);
                return (Stage::Open(book), reply);
            }
            Command::Freeze => {
                let (stage, reply) = self.freeze(book);
                return (stage, Ok(reply));
            }
            Command::Remove { contributor } => self.remove(&book, contributor),
            Command::HandIn { pass } => self.hand_in(&book, pass),
            Command::Post { pass, row } => self.post(&mut book, pass, row),
            Command::Cost { pass, row } => self.add_cost(&mut book, pass, row),
            Command::Correct {
                pass,
                row,
                quantity,
            } => self.correct(&book, pass, row, quantity),
            Command::TakeIn { .. } | Command::Reopen | Command::Bill { .. } => Reply::NotOffered,
        };
        (Stage::Open(book), Ok(reply))
    }
}
