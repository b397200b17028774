// Numbers behind single spaces, at the front of a text.
ghost use Rattle.std.specs.Prelude.{◌≡◌, ℕ, ◌≤◌};
ghost use Rattle.journal_line.specs.Lines.{next_in, last_in};
ghost use Rattle.std.specs.Option.{option_map};

use scanning::{Number, at_end, field, field_of};

// The number of the next field, not above a limit, and what follows it.
pub(crate) fn next_within<'a, N: Number>(text: &'a [u8], most: u64) -> Option<(N, &'a [u8])>
    requires { most ≤ N.MOST }
    ensures { option_map (λ p. (N.worth p.0, p.1.now)) result ≡ next_in most text.now }
{
    let (number, text) = field(text, b" ", most)?;
    Some((N::holding(number)?, text))
}

// The same with the limit of the number's type.
pub(crate) fn next<'a, N: Number>(text: &'a [u8]) -> Option<(N, &'a [u8])>
    ensures { option_map (λ p. (N.worth p.0, p.1.now)) result ≡ next_in N.MOST text.now }
{
    field_of(text, b" ")
}

// The number of the last field, not above a limit.
pub(crate) fn last_within<N: Number>(text: &[u8], most: u64) -> Option<N>
    requires { most ≤ N.MOST }
    ensures { option_map N.worth result ≡ last_in most text.now }
{
    let (number, text) = next_within(text, most)?;
    at_end(text, number)
}

// The same with the limit of the number's type.
pub(crate) fn last<N: Number>(text: &[u8]) -> Option<N>
    ensures { option_map N.worth result ≡ last_in N.MOST text.now }
{
    last_within(text, N::MOST)
}
