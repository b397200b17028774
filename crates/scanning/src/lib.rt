// Words and numbers at the front of a text.
#![tactic(auto)]

ghost use Rattle.std.specs.Prelude.{◌≡◌, ◌≤◌, IfSome};
ghost use Rattle.scanning.specs.Scanning.{after_word, number_in, field_in, at_end};
ghost use Rattle.std.specs.Option.{option_map};

pub mod unsigned;

pub use unsigned::Number;

// What follows a word, if the text begins with it.
pub fn after_word<'a>(text: &'a [u8], word: &[u8]) -> Option<&'a [u8]>
    ensures { option_map (λ x. x.now) result ≡ after_word word.now text.now }
{
    // byte by byte: the words are short, and `strip_prefix` takes longer for them
    if text.len() < word.len() {
        return None;
    }
    for (i, w) in word.iter().enumerate() {
        if text[i] != *w {
            return None;
        }
    }
    Some(&text[word.len()..])
}

// A value, if the text is at its end.
pub fn at_end<T: Drop>(text: &[u8], value: T) -> Option<T>
    ensures { result ≡ at_end text.now value }
{
    text.is_empty().then_some(value)
}

// The number at the front of the text, of digits, and what follows it.
pub fn number<'a>(text: &'a [u8], most: u64) -> Option<(u64, &'a [u8])>
    ensures value { option_map (λ p. (p.0, p.1.now)) result ≡ number_in most text.now }
    ensures bound { IfSome result (λ p. p.0 ≤ most) }
{
    if !text.first()?.is_ascii_digit() {
        return None;
    }
    let mut value: u64 = 0;
    for (place, digit) in text.iter().enumerate() {
        if !digit.is_ascii_digit() {
            return Some((value, &text[place..]));
        }
        value = value
            .checked_mul(10)?
            .checked_add(u64::from(*digit - b'0'))?;
        // a long run of digits is left at the first digit too many
        if value > most {
            return None;
        }
    }
    Some((value, &[]))
}

// A word, and the number behind it.
pub fn field<'a>(text: &'a [u8], word: &[u8], most: u64) -> Option<(u64, &'a [u8])>
    ensures value { option_map (λ p. (p.0, p.1.now)) result ≡ field_in word.now most text.now }
    ensures bound { IfSome result (λ p. p.0 ≤ most) }
{
    let rest = after_word(text, word)?;
    number(rest, most)
}

// A word, and behind it a number that the type holds.
pub fn field_of<'a, N: Number>(text: &'a [u8], word: &[u8]) -> Option<(N, &'a [u8])>
    ensures { option_map (λ p. (N.worth p.0, p.1.now)) result ≡ field_in word.now N.MOST text.now }
{
    let (value, rest) = field(text, word, N::MOST)?;
    Some((N::holding(value)?, rest))
}
