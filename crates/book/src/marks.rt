// The marks of the contributors, one each: the number of the pass that a contributor holds, or 0.
ghost use Rattle.std.specs.Prelude.{◌≡◌, ◌<◌, length, slice_index, IfOk};
ghost use Rattle.tariff.specs.Refusals.{answer};
ghost use Rattle.book_rules.specs.Machine.{freeze_refusal, hand_in_refusal};
ghost use Rattle.book.specs.Shown.{numbers_of, pass_of};
ghost use Rattle.book.specs.Tests.{marks_refusal, contributor_refusal};

use crate::states::{Numbers, Pass};
use tariff::Refusal;
use tariff::limits::CONTRIBUTORS;

// Refuses marks that are not one for each contributor.
pub(crate) fn check_marks(marks: &[u32]) -> Result<(), Refusal>
    ensures { result ≡ answer (marks_refusal marks.now) tt }
{
    if marks.len() != CONTRIBUTORS {
        return Err(Refusal::TableUnfit);
    }
    Ok(())
}

// The mark of a contributor, who has to be one of those that are marked.
pub(crate) fn mark_of(marks: &[u32], contributor: usize) -> Result<u32, Refusal>
    ensures mark { result ≡ answer (contributor_refusal marks.now contributor) (slice_index marks.now contributor) }
    ensures known { IfOk result (λ _. contributor < length marks.now) }
{
    check_marks(marks)?;
    if contributor >= CONTRIBUTORS {
        return Err(Refusal::UnknownContributor);
    }
    Ok(marks[contributor])
}

// Refuses marks that do not fit, and then marks by which some contributor holds a pass.
pub(crate) fn check_none_outstanding(marks: &[u32]) -> Result<(), Refusal>
    ensures { result ≡ answer (freeze_refusal marks.now) tt }
{
    check_marks(marks)?;
    if marks.iter().any(|mark| *mark != 0) {
        return Err(Refusal::PassOutstanding);
    }
    Ok(())
}

impl Numbers {
    // Refuses marks that do not fit, and then a pass that is not valid at this book while it is
    // open: one of this book, whose number is its contributor's mark.
    pub(crate) fn check_pass(&self, marks: &[u32], pass: &Pass) -> Result<(), Refusal>
        ensures { result ≡ answer (hand_in_refusal (numbers_of self.now) marks.now (pass_of pass.now)) tt }
    {
        check_marks(marks)?;
        if pass.book != self.number
            || pass.contributor >= CONTRIBUTORS
            || marks[pass.contributor] != pass.mark
        {
            return Err(Refusal::PassNotValid);
        }
        Ok(())
    }
}

impl Pass {
    // The number of the pass, which a journal names it by.
    pub fn number(&self) -> u32
        ensures { result ≡ (pass_of self.now).mark }
    {
        self.mark
    }

    // Ends the pass, and answers whose it was.
    pub(crate) fn spend(self) -> usize
        ensures { result ≡ self.contributor }
    {
        let Pass {
            book: _,
            contributor,
            mark: _,
        } = self;
        contributor
    }
}
