// The passes of a journal: each at its number less one, until it is handed in or taken in. They are no
// map: passes are numbered from 1 without gaps, and a Pass is no `Drop`.
ghost use Rattle.std.specs.Prelude.{◌≡◌, ◌+◌, ◌-◌, None, MatchOption, slice_set};
ghost use Rattle.std.specs.Option.{option_map};
ghost use Rattle.book.specs.Shown.{pass_of};
ghost use Rattle.journal_rules.specs.Journal.{held_pass};
ghost use Rattle.journal_book.specs.Stages.{shown_pass, shown_passes};

use book::Pass;

// The place of the pass of a number; there is no pass of number 0.
fn place_of(number: u32) -> Option<usize>
    ensures { MatchOption result (number ≡ 0) (λ place. place + 1 ≡ number) }
{
    // a cast, since usize has no From<u32>
    (number as usize).checked_sub(1)
}

// The pass of a number, if the journal holds it.
pub(crate) fn held_pass(passes: &[Option<Pass>], number: u32) -> Option<&Pass>
    ensures { option_map shown_pass result ≡ held_pass (shown_passes passes.now) number }
{
    passes.get(place_of(number)?)?.as_ref()
}

// Takes a pass out of its place, which is empty from then on.
pub(crate) fn take_pass(passes: &mut Vec<Option<Pass>>, number: u32) -> Option<Pass>
    ensures value { option_map pass_of result ≡ held_pass (shown_passes passes.old.items) number }
    ensures after { MatchOption result (shown_passes passes.new.items ≡ shown_passes passes.old.items) (λ _. shown_passes passes.new.items ≡ slice_set (shown_passes passes.old.items) (number - 1) None) }
{
    passes.get_mut(place_of(number)?)?.take()
}
