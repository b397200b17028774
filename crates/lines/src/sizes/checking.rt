// How checked sizes are made and read.
ghost use Rattle.std.specs.Prelude.{◌≡◌};
ghost use Rattle.tariff.specs.Refusals.{answer};
ghost use Rattle.lines.specs.Sizes.{sizes_refusal};
ghost use Rattle.lines.specs.Checked.{sizes_of, checked};

use super::BookSizes;
use tariff::limits::{MOST_CUSTOMERS, MOST_DAYS, MOST_SUBZONES};
use tariff::{Refusal, Sizes};

impl BookSizes {
    // Refuses sizes that no book can have.
    pub fn check(sizes: Sizes) -> Result<BookSizes, Refusal>
        ensures { checked result ≡ answer (sizes_refusal sizes) sizes }
    {
        if !(1..=MOST_CUSTOMERS).contains(&sizes.customers)
            || !(1..=MOST_DAYS).contains(&sizes.days)
            || !(1..=MOST_SUBZONES).contains(&sizes.subzones)
        {
            return Err(Refusal::SizeOutOfRange);
        }
        Ok(BookSizes { sizes })
    }

    // The sizes themselves.
    pub fn sizes(&self) -> Sizes
        ensures { result ≡ sizes_of self.now }
    {
        self.sizes
    }
}
