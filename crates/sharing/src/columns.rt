// Columns: one figure a customer, of units or of cents.
ghost use Rattle.std.specs.Prelude.{◌≡◌, ℕ, ◌*◌, ◌≤◌, length, sum_by};

// A figure of a column: a number of 32 or of 64 bits. (Two impls by hand: the gate refuses the impls
// of a macro, and `MAX` and the bits are in no trait.)
pub trait Figure: Copy {
    ghost amounts: { Self → ℕ };

    // the largest figure
    ghost most: { ℕ };

    fn amount(self) -> u64
        ensures value { result ≡ amounts self }
        ensures bound { result ≤ most };
}

impl Figure for u32 {
    ghost amounts = { λ f. f };

    ghost most = { 4294967295 };

    fn amount(self) -> u64 {
        u64::from(self)
    }
}

impl Figure for u64 {
    ghost amounts = { λ f. f };

    ghost most = { 18446744073709551615 };

    fn amount(self) -> u64 {
        self
    }
}

// The sum of a column, of whatever length.
pub fn column_total<F: Figure>(column: &[F]) -> u128
    ensures value { result ≡ sum_by F.amounts column.now }
    ensures bound { result ≤ F.most * length column.now }
{
    let mut total = 0;
    for figure in column {
        total += u128::from(figure.amount());
    }
    total
}
