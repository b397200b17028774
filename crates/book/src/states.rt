// The states of a book, and the pass.
use lines::BookSizes;

// The numbers of a book: its sizes, its own number, how many rows of each table it counts, and the
// number of the last pass that it gave out.
#[derive(Clone, Copy)]
pub(crate) struct Numbers {
    pub(crate) sizes: BookSizes,
    pub(crate) number: u32,
    pub(crate) units: usize,
    pub(crate) costs: usize,
    pub(crate) last_pass: u32,
}

// A book that takes posts. Only opening, reopening and a refused freeze give one.
#[derive(Drop)]
pub struct OpenBook {
    pub(crate) numbers: Numbers,
}

// A book that bills. Only freezing gives one.
#[derive(Drop)]
pub struct FrozenBook {
    pub(crate) numbers: Numbers,
}

// A contributor's right to post into one book, while the contributor's mark is the pass's. It is no
// `Drop` and no `Copy`: only handing it in, or having it taken in, ends it.
pub struct Pass {
    pub(crate) book: u32,
    pub(crate) contributor: usize,
    pub(crate) mark: u32,
}
