// Sizes that a book can have, as a type that only the check makes.
ghost use Rattle.std.specs.Prelude.{◌≡◌, false};
ghost use Rattle.lines.specs.Sizes.{unfit};

use tariff::Sizes;

mod checking;

// 1 to 256 customers, 1 to 31 days and 1 to 32 subzones.
#[derive(Clone, Copy)]
pub struct BookSizes {
    sizes: Sizes,
    ghost ok: { unfit sizes ≡ false },
}
