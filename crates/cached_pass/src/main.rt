// The story of the cached pass. A contractor is taken off the project; for four days the pass that
// the contractor still holds is tried on the book; the book and its bill stay as they were. Each
// call is printed with its answer.
#![tactic(auto)]

mod said;

ghost use Rattle.std.specs.Prelude.{◌≡◌, false};
ghost use Rattle.book_rules.specs.Machine.{valid};
ghost use Rattle.book_rules.specs.Run.{opened};
ghost use Rattle.book.specs.Shown.{open_book, pass_of};

use book::{FrozenBook, OpenBook, Pass};
use said::Said;
use settling::{NO_COST, NO_UNITS};
use sharing::{Down, Running, SharingRule};
use tariff::{CostRow, Refusal, Sizes, UnitRow};

const ANALYST: usize = 1;

const CONTRACTOR: usize = 5;

const SIZES: Sizes = Sizes {
    customers: 3,
    days: 4,
    subzones: 1,
};

const COST: CostRow = CostRow {
    line: 3,
    subzone: 1,
    day: 1,
    hour: 1,
    amount: 1000,
};

// A call in words, and what it answered.
#[derive(Clone, Copy)]
pub struct Note {
    call: &'static str,
    answer: Said,
}

// What each call answered so far. No heap: the story is printed whole where there is no memory, so
// the notes are an array with a count.
#[derive(Drop)]
pub struct Log {
    notes: [Note; MOST_NOTES],
    count: usize,
}

// At least as many as the story has calls.
const MOST_NOTES: usize = 32;

impl Log {
    fn new() -> Log {
        let blank = Note {
            call: "",
            answer: Said::Done,
        };
        Log {
            notes: [blank; MOST_NOTES],
            count: 0,
        }
    }

    fn note<A: Into<Said>>(&mut self, call: &'static str, answer: A) {
        let answer = answer.into();
        let place = self.count;
        if let Some(note) = self.notes.get_mut(place) {
            *note = Note { call, answer };
            self.count = place + 1;
        }
    }
}

fn load_row(customer: u16, usage: u8, quantity: u32) -> UnitRow {
    UnitRow {
        customer,
        day: 1,
        hour: 1,
        subzone: 1,
        usage,
        quantity,
    }
}

fn admit(
    book: &mut OpenBook,
    marks: &mut [u32],
    contributor: usize,
    log: &mut Log,
    call: &'static str,
) -> Result<Pass, Refusal> {
    let pass = book.admit(marks, contributor)?;
    log.note(call, Said::Pass(pass.number()));
    Ok(pass)
}

// The analyst posts, and the contractor too.
fn post_all(
    book: &mut OpenBook,
    units: &mut [UnitRow],
    costs: &mut [CostRow],
    marks: &[u32],
    analyst: &Pass,
    contractor: &Pass,
    log: &mut Log,
) {
    log.note(
        "analyst posts load of customer 0",
        book.post(units, marks, analyst, load_row(0, 0, 600)),
    );
    log.note(
        "contractor posts load of customer 1",
        book.post(units, marks, contractor, load_row(1, 0, 30)),
    );
    log.note(
        "analyst corrects row 1",
        book.correct(units, marks, analyst, 1, 300),
    );
    log.note(
        "analyst posts station power of customer 2",
        book.post(units, marks, analyst, load_row(2, 4, 90)),
    );
    log.note(
        "analyst adds a cost of line 3",
        book.add_cost(costs, marks, analyst, COST),
    );
}

// The pass of the removed contractor is tried for four days. With a pass that is not valid, nothing
// of the book or of its tables changes.
pub fn try_cached_pass(
    book: &mut OpenBook,
    units: &mut [UnitRow],
    costs: &mut [CostRow],
    marks: &[u32],
    contractor: &Pass,
    log: &mut Log,
)
    ensures { valid (open_book book.old) marks.now (pass_of contractor.now) ≡ false → opened (open_book book.new) units.new costs.new marks.now ≡ opened (open_book book.old) units.old costs.old marks.now }
{
    let first = book.correct(units, marks, contractor, 0, 1);
    log.note("day 1: the cached pass corrects row 0", first);
    let second = book.correct(units, marks, contractor, 1, 1);
    log.note("day 2: the cached pass corrects row 1", second);
    let third = book.post(units, marks, contractor, load_row(0, 0, 5));
    log.note("day 3: the cached pass posts a row", third);
    let fourth = book.add_cost(costs, marks, contractor, COST);
    log.note("day 4: the cached pass adds a cost", fourth);
}

fn bill_by<R: SharingRule>(
    book: &FrozenBook,
    rule: &mut R,
    units: &[UnitRow],
    costs: &[CostRow],
    call: &'static str,
    log: &mut Log,
) {
    let mut charges = [0; 3];
    let mut stations = [0; 3];
    let mut credits = [0; 3];
    let answer = book.bill(
        rule,
        units,
        costs,
        3,
        &mut charges,
        &mut stations,
        &mut credits,
    );
    log.note(call, Said::bill(answer, charges, stations, credits));
}

fn bill(book: &FrozenBook, units: &[UnitRow], costs: &[CostRow], log: &mut Log) {
    bill_by(book, &mut Down, units, costs, "bill line 3 by Down", log);
    bill_by(
        book,
        &mut Running,
        units,
        costs,
        "bill line 3 by Running",
        log,
    );
}

// Freezes the book, or says why it stays open.
fn freeze(book: OpenBook, marks: &[u32], log: &mut Log) -> Result<FrozenBook, OpenBook> {
    match book.freeze(marks) {
        Ok(frozen) => {
            log.note("freeze", Said::Done);
            Ok(frozen)
        }
        Err((open, refusal)) => {
            log.note("freeze", refusal);
            Err(open)
        }
    }
}

// After the reopening the contractor is admitted again, with a pass of another number.
fn admit_again(
    mut book: OpenBook,
    units: &mut [UnitRow],
    costs: &[CostRow],
    marks: &mut [u32],
    log: &mut Log,
) -> Result<(), Refusal> {
    let pass = admit(
        &mut book,
        marks,
        CONTRACTOR,
        log,
        "admit the contractor again",
    )?;
    log.note(
        "contractor posts a wheel of customer 0",
        book.post(units, marks, &pass, load_row(0, 1, 40)),
    );
    log.note("contractor hands in", book.hand_in(marks, pass));
    if let Ok(again) = freeze(book, marks, log) {
        bill(&again, units, costs, log);
    }
    Ok(())
}

// Once the analyst has handed in, the book is billed while the cached pass is still out.
fn settle(
    book: OpenBook,
    units: &mut [UnitRow],
    costs: &[CostRow],
    marks: &mut [u32],
    contractor: Pass,
    log: &mut Log,
) -> Result<(), Refusal> {
    match freeze(book, marks, log) {
        Ok(frozen) => {
            bill(&frozen, units, costs, log);
            log.note("take in the cached pass", frozen.take_in(marks, contractor));
            let open = frozen.reopen();
            log.note("reopen", Said::Done);
            admit_again(open, units, costs, marks, log)
        }
        Err(open) => {
            log.note("contractor hands in", open.hand_in(marks, contractor));
            Ok(())
        }
    }
}

fn play(log: &mut Log) -> Result<(), Refusal> {
    let mut units = [NO_UNITS; 8];
    let mut costs = [NO_COST; 4];
    let mut marks = [0; 64];
    let mut book = OpenBook::open(SIZES, 7, &mut marks)?;
    log.note("open", Said::Done);
    let analyst = admit(&mut book, &mut marks, ANALYST, log, "admit the analyst")?;
    // no `?`: the analyst's pass has to be handed in before an error goes on
    let contractor = match admit(
        &mut book,
        &mut marks,
        CONTRACTOR,
        log,
        "admit the contractor",
    ) {
        Ok(pass) => pass,
        Err(refusal) => {
            log.note("analyst hands in", book.hand_in(&mut marks, analyst));
            return Err(refusal);
        }
    };
    post_all(
        &mut book,
        &mut units,
        &mut costs,
        &marks,
        &analyst,
        &contractor,
        log,
    );
    log.note("remove the contractor", book.remove(&mut marks, CONTRACTOR));
    try_cached_pass(&mut book, &mut units, &mut costs, &marks, &contractor, log);
    let book = match freeze(book, &marks, log) {
        Ok(frozen) => frozen.reopen(),
        Err(open) => open,
    };
    log.note("analyst hands in", book.hand_in(&mut marks, analyst));
    settle(book, &mut units, &costs, &mut marks, contractor, log)
}

fn main(rt: HostRuntime) -> anyhow::Result<()> {
    let mut log = Log::new();
    if let Err(refusal) = play(&mut log) {
        log.note("stopped", refusal);
    }
    for Note { call, answer } in log.notes.iter().take(log.count) {
        println!(rt; "{call}: {answer}")?;
    }
    Ok(())
}
