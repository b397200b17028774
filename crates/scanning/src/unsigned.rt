// The types of numbers that a text may say.
ghost use Rattle.std.specs.Prelude.{◌≡◌, ℕ, Some, None, cond, nat_le};
ghost use Rattle.std.specs.Option.{option_map};

// A type that holds the numbers from 0 to `MOST`.
pub trait Number: Copy {
    // The largest number, and the number that a value is.
    ghost MOST: { ℕ };

    ghost worth: { Self → ℕ };

    const MOST: u64;

    // A number of the type, if it holds the value.
    fn holding(value: u64) -> Option<Self>
        ensures { option_map Self.worth result ≡ cond (nat_le value MOST) (Some value) None };
}

// Four like impls: no macro may write an impl here, and the types' `MAX` is in no trait.
impl Number for u8 {
    ghost MOST = { 255 };

    ghost worth = { λ n. n };

    const MOST: u64 = u8::MAX as u64;

    fn holding(value: u64) -> Option<u8> {
        u8::try_from(value).ok()
    }
}

impl Number for u16 {
    ghost MOST = { 65535 };

    ghost worth = { λ n. n };

    const MOST: u64 = u16::MAX as u64;

    fn holding(value: u64) -> Option<u16> {
        u16::try_from(value).ok()
    }
}

impl Number for u32 {
    ghost MOST = { 4294967295 };

    ghost worth = { λ n. n };

    const MOST: u64 = u32::MAX as u64;

    fn holding(value: u64) -> Option<u32> {
        u32::try_from(value).ok()
    }
}

impl Number for usize {
    ghost MOST = { 18446744073709551615 };

    ghost worth = { λ n. n };

    const MOST: u64 = usize::MAX as u64;

    fn holding(value: u64) -> Option<usize> {
        usize::try_from(value).ok()
    }
}
