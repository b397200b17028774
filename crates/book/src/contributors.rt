// Contributors come and go: admit, remove, hand in, take in.
ghost use Rattle.std.specs.Prelude.{◌≡◌, ℕ, List};
ghost use Rattle.tariff.specs.declared.rows.UnitRow.{UnitRow};
ghost use Rattle.tariff.specs.declared.rows.CostRow.{CostRow};
ghost use Rattle.book_rules.specs.Run.{step, opened, closed, admit, remove, hand_in, take_in};
ghost use Rattle.book.specs.Shown.{open_book, frozen_book, pass_of};
ghost use Rattle.book.specs.Told.{told, told_pass};

use crate::marks::{check_marks, mark_of};
use crate::states::{FrozenBook, OpenBook, Pass};
use tariff::Refusal;

impl OpenBook {
    // Gives a contributor a pass with the next pass number, which becomes the contributor's mark.
    pub fn admit(&mut self, marks: &mut [u32], contributor: usize) -> Result<Pass, Refusal>
        ensures { (units : List UnitRow) (costs : List CostRow) → step (opened (open_book self.old) units costs marks.old) (admit contributor) ≡ record { state = opened (open_book self.new) units costs marks.new; answer = told_pass result } }
    {
        if mark_of(marks, contributor)? != 0 {
            return Err(Refusal::AlreadyAdmitted);
        }
        // the last pass number is the last of its type
        let next = self.numbers.last_pass.checked_add(1);
        let mark = next.ok_or(Refusal::PassNumbersUsedUp)?;
        self.numbers.last_pass = mark;
        marks[contributor] = mark;
        Ok(Pass {
            book: self.numbers.number,
            contributor,
            mark,
        })
    }

    // Takes a contributor's right to post away; the pass it holds is void from then on.
    pub fn remove(&self, marks: &mut [u32], contributor: usize) -> Result<(), Refusal>
        ensures { (units : List UnitRow) (costs : List CostRow) → step (opened (open_book self.now) units costs marks.old) (remove contributor) ≡ record { state = opened (open_book self.now) units costs marks.new; answer = told result } }
    {
        if mark_of(marks, contributor)? == 0 {
            return Err(Refusal::NotAdmitted);
        }
        marks[contributor] = 0;
        Ok(())
    }

    // Ends a pass, refused or not; a valid one sets its contributor's mark to 0.
    pub fn hand_in(&self, marks: &mut [u32], pass: Pass) -> Result<(), Refusal>
        ensures { (units : List UnitRow) (costs : List CostRow) → step (opened (open_book self.now) units costs marks.old) (hand_in (pass_of pass)) ≡ record { state = opened (open_book self.now) units costs marks.new; answer = told result } }
    {
        let checked = self.numbers.check_pass(marks, &pass);
        let holder = pass.spend();
        checked?;
        marks[holder] = 0;
        Ok(())
    }
}

impl FrozenBook {
    // Ends a late pass, which is not valid at a frozen book: always refused.
    pub fn take_in(&self, marks: &[u32], pass: Pass) -> Result<(), Refusal>
        ensures { (units : List UnitRow) (costs : List CostRow) → step (closed (frozen_book self.now) units costs marks.now) (take_in (pass_of pass)) ≡ record { state = closed (frozen_book self.now) units costs marks.now; answer = told result } }
    {
        pass.spend();
        check_marks(marks)?;
        Err(Refusal::PassNotValid)
    }
}
