// A book is opened, frozen and reopened.
ghost use Rattle.std.specs.Prelude.{◌≡◌, ℕ, List, replicate, IfOk};
ghost use Rattle.tariff.specs.declared.rows.UnitRow.{UnitRow};
ghost use Rattle.tariff.specs.declared.rows.CostRow.{CostRow};
ghost use Rattle.tariff.specs.Limits.{contributors};
ghost use Rattle.tariff.specs.Refusals.{answer, unless};
ghost use Rattle.book_rules.specs.Laws.{LawsOfALife};
ghost use Rattle.book_rules.specs.Machine.{open_refusal, new_book};
ghost use Rattle.book_rules.specs.Run.{step, opened, closed, freeze, reopen, reopened};
ghost use Rattle.book.specs.Shown.{open_book, frozen_book};
ghost use Rattle.book.specs.Told.{frozen, told_book};

use crate::marks::{check_marks, check_none_outstanding};
use crate::states::{FrozenBook, Numbers, OpenBook};
use lines::BookSizes;
use tariff::{Refusal, Sizes};

impl OpenBook {
    // Opens a book with no rows and no passes, and sets every mark to 0. What its life keeps, for
    // every list of calls and every sharing rule, stands on this contract.
    pub fn open(sizes: Sizes, number: u32, marks: &mut [u32]) -> Result<OpenBook, Refusal>
        ensures answers { told_book result ≡ answer (open_refusal sizes marks.old) (new_book sizes number) }
        ensures clears { marks.new ≡ unless (open_refusal sizes marks.old) marks.old (replicate contributors 0) }
        ensures life { IfOk result (λ b. (units : List UnitRow) (costs : List CostRow) → LawsOfALife (opened (open_book b) units costs marks.new)) }
    {
        let sizes = BookSizes::check(sizes)?;
        check_marks(marks)?;
        marks.fill(0);
        Ok(OpenBook {
            numbers: Numbers {
                sizes,
                number,
                units: 0,
                costs: 0,
                last_pass: 0,
            },
        })
    }

    // Freezes the book once no pass is out; a refusal gives the open book back.
    pub fn freeze(self, marks: &[u32]) -> Result<FrozenBook, (OpenBook, Refusal)>
        ensures { (units : List UnitRow) (costs : List CostRow) → step (opened (open_book self) units costs marks.now) freeze ≡ frozen units costs marks.now result }
    {
        match check_none_outstanding(marks) {
            Ok(()) => {
                let OpenBook { numbers } = self;
                Ok(FrozenBook { numbers })
            }
            // no map_err: its closure would take the book that the other arm freezes
            Err(refusal) => Err((self, refusal)),
        }
    }
}

impl FrozenBook {
    // Opens the book again with everything kept.
    pub fn reopen(self) -> OpenBook
        ensures { (units : List UnitRow) (costs : List CostRow) (marks : List ℕ) → step (closed (frozen_book self) units costs marks) reopen ≡ record { state = opened (open_book result) units costs marks; answer = reopened (open_book result) } }
    {
        let FrozenBook { numbers } = self;
        OpenBook { numbers }
    }
}
