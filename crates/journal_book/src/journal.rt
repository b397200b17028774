// A journal is opened, makes calls, and is closed.
ghost use Rattle.std.specs.Prelude.{◌≡◌, length, replicate, IfOk, IfSome};
ghost use Rattle.tariff.specs.Limits.{contributors};
ghost use Rattle.tariff.specs.Refusals.{answer};
ghost use Rattle.sharing.specs.Rule.{Lawful};
ghost use Rattle.book_rules.specs.Laws.{LawsOfALife};
ghost use Rattle.book_rules.specs.Machine.{open_refusal};
ghost use Rattle.journal_book.specs.Answers.{Leaves, Written};
ghost use Rattle.journal_book.specs.Shown.{rules_for, shown_journal, told_journal, opening_journal};

use crate::errors::OpenError;
use crate::replies::Reply;
use crate::states::{Journal, Stage, Tables};
use book::{OpenBook, Pass};
use journal_line::{Command, Opening};
use settling::{NO_COST, NO_UNITS};
use sharing::SharingRule;
use std::alloc::{AllocError, Global};
use tariff::limits::CONTRIBUTORS;

// Hands a pass in, or has it taken in.
fn end_pass(stage: &Stage, marks: &mut [u32], pass: Pass) {
    let _ = match stage {
        Stage::Open(book) => book.hand_in(marks, pass),
        Stage::Frozen(book) => book.take_in(marks, pass),
    };
}

impl Journal {
    // Opens a book with tables of free rows. What its life keeps stands on this contract.
    pub fn open(heap: Global, opening: Opening) -> Result<Journal, OpenError>
        ensures answers { IfSome (told_journal result) (λ told. told ≡ answer (open_refusal opening.sizes (replicate contributors 0)) (opening_journal opening)) }
        ensures life { IfOk result (λ j. LawsOfALife (shown_journal j).state) }
    {
        let units = vec![in heap; NO_UNITS; opening.unit_rows]?;
        let costs = vec![in heap; NO_COST; opening.cost_rows]?;
        let mut marks = vec![in heap; 0u32; CONTRIBUTORS]?;
        let book = OpenBook::open(opening.sizes, opening.number, &mut marks)?;
        Ok(Journal {
            stage: Stage::Open(book),
            tables: Tables {
                units,
                costs,
                marks,
                passes: Vec::new(heap),
            },
        })
    }

    // Makes one call. The rows of a bill are written from the start of `out` on.
    // Two parameters and no struct of both: a clause names both meanings and their laws at each. A
    // struct of two lent rules would show its ends as nested pairs, one that owns them would ask
    // callers to give their rules away.
    pub fn make<D: SharingRule, R: SharingRule>(
        self,
        down: &mut D,
        running: &mut R,
        command: Command,
        out: &mut [u8],
    ) -> (Journal, Result<Reply, AllocError>)
        ensures answers { (ld : Lawful (D.meaning down.old)) (lr : Lawful (R.meaning running.old)) → Leaves (rules_for (D.meaning down.old) (R.meaning running.old) ld lr) (length out.old) command (shown_journal self) (shown_journal result.0) result.1 }
        ensures out { (ld : Lawful (D.meaning down.old)) (lr : Lawful (R.meaning running.old)) → Written (rules_for (D.meaning down.old) (R.meaning running.old) ld lr) command (shown_journal self) out.old out.new result.1 }
        ensures lawful { Lawful (D.meaning down.old) × Lawful (R.meaning running.old) }
        ensures means { (D.meaning down.new ≡ D.meaning down.old) × (R.meaning running.new ≡ R.meaning running.old) }
    {
        // no `?` here or above: the journal is moved, and goes back beside the error
        let Journal { stage, mut tables } = self;
        match stage {
            Stage::Open(book) => {
                let (stage, reply) = tables.call_open(book, command);
                (Journal { stage, tables }, reply)
            }
            Stage::Frozen(book) => {
                let (stage, reply) = tables.call_frozen(book, down, running, command, out);
                (Journal { stage, tables }, Ok(reply))
            }
        }
    }

    // Ends the journal, and every pass that it still holds.
    pub fn close(self) {
        let Journal { stage, tables } = self;
        let Tables {
            units: _,
            costs: _,
            mut marks,
            mut passes,
        } = tables;
        while let Some(held) = passes.pop() {
            if let Some(pass) = held {
                end_pass(&stage, &mut marks, pass);
            }
        }
        passes.destroy_empty();
    }
}
