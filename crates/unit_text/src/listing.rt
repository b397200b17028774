// A unit file as text.
ghost use Rattle.std.specs.Prelude.{◌≡◌, ◌++◌, IfOk, Some, string_bytes, OnOk};
ghost use Rattle.unit_file.specs.Laws.{Rewritten};
ghost use Rattle.unit_file.specs.Reading.{contents_of};
ghost use Rattle.unit_file.specs.Records.{item_of};
ghost use Rattle.unit_text.specs.Composing.{Inverse};
ghost use Rattle.unit_text.specs.Lines.{header_text, unit_text, cost_text, text_of, line_of, fault_line, listing};
ghost use Rattle.unit_text.specs.Listing.{Pushed};
ghost use Rattle.unit_text.specs.declared.listing.Ending.TheVariants.{Refused, OutOfMemory};

use std::alloc::{AllocError, Global};
use tariff::{CostRow, Refusal, Sizes, UnitRow};
use unit_file::{Reader, Record};

// The text of a file, and the refusal at which it ends, if it does.
#[derive(Drop)]
pub struct Listing {
    pub text: Vec<u8>,
    pub refusal: Option<Refusal>,
}

// Rows have no Display of their lines: a note is bytes, so a record has none, and one form serves all.
fn header_text(heap: Global, sizes: Sizes) -> Result<String, AllocError>
    ensures { IfOk result (λ t. string_bytes t ≡ header_text sizes) }
{
    let Sizes {
        customers,
        days,
        subzones,
    } = sizes;
    format!(in heap; "book customers {customers} days {days} subzones {subzones}")
}

fn unit_text(heap: Global, row: UnitRow) -> Result<String, AllocError>
    ensures { IfOk result (λ t. string_bytes t ≡ unit_text row) }
{
    let UnitRow {
        customer,
        day,
        hour,
        subzone,
        usage,
        quantity,
    } = row;
    format!(in heap;
        "units customer {customer} day {day} hour {hour} subzone {subzone} use {usage} quantity {quantity}"
    )
}

fn cost_text(heap: Global, row: CostRow) -> Result<String, AllocError>
    ensures { IfOk result (λ t. string_bytes t ≡ cost_text row) }
{
    let CostRow {
        line,
        subzone,
        day,
        hour,
        amount,
    } = row;
    format!(in heap; "cost line {line} subzone {subzone} day {day} hour {hour} amount {amount}")
}

fn push_string(text: &mut Vec<u8>, line: String) -> Result<(), AllocError>
    ensures { OnOk result (text.new.items ≡ text.old.items ++ string_bytes line) }
{
    text.extend_from_slice(line.as_bytes())
}

fn push_both(text: &mut Vec<u8>, first: &[u8], second: &[u8]) -> Result<(), AllocError>
    ensures { OnOk result (text.new.items ≡ text.old.items ++ (first.now ++ second.now)) }
{
    text.extend_from_slice(first)?;
    text.extend_from_slice(second)
}

fn push_text(text: &mut Vec<u8>, heap: Global, record: Record) -> Result<(), AllocError>
    ensures { OnOk result (text.new.items ≡ text.old.items ++ text_of (item_of «record».entry)) }
{
    match record {
        Record::Header(sizes) => push_string(text, header_text(heap, sizes)?),
        Record::Unit(row) => push_string(text, unit_text(heap, row)?),
        Record::Cost(row) => push_string(text, cost_text(heap, row)?),
        Record::Note(note) => push_both(text, b"note ", note),
    }
}

fn push_line(text: &mut Vec<u8>, heap: Global, record: Record) -> Result<(), AllocError>
    ensures { OnOk result (text.new.items ≡ text.old.items ++ line_of (item_of «record».entry)) }
{
    push_text(text, heap, record)?;
    text.extend_from_slice(b"\n")
}

fn push_fault(text: &mut Vec<u8>, heap: Global, refusal: Refusal) -> Result<(), AllocError>
    ensures { OnOk result (text.new.items ≡ text.old.items ++ fault_line (Some refusal)) }
{
    push_string(text, format!(in heap; "{refusal}\n")?)
}

// What ends a listing before the file does. It is not generic in its refusal: `From<E>` and
// `From<AllocError>` would overlap.
#[derive(Drop)]
enum Ending {
    Refused(Refusal),
    OutOfMemory(AllocError),
}

impl From<Refusal> for Ending {
    ghost from_gives = { λ refusal ending. ending ≡ Refused refusal };

    fn from(refusal: Refusal) -> Ending {
        Ending::Refused(refusal)
    }
}

impl From<AllocError> for Ending {
    ghost from_gives = { λ error ending. ending ≡ OutOfMemory error };

    fn from(error: AllocError) -> Ending {
        Ending::OutOfMemory(error)
    }
}

// The lines of a file's records, up to the refusal that ends them, if one does.
fn push_records(text: &mut Vec<u8>, heap: Global, bytes: &[u8]) -> Result<(), Ending>
    ensures { Pushed text.old.items text.new.items (contents_of bytes.now) result }
{
    let mut reader = Reader::new(bytes)?;
    while let Some(record) = reader.next_in_order()? {
        push_line(text, heap, record)?;
    }
    Ok(())
}

// The text of a file. A fault ends it with the refusal's number, reason and byte place.
pub fn list(heap: Global, bytes: &[u8]) -> Result<Listing, AllocError>
    ensures text { IfOk result (λ l. l.text.items ≡ listing bytes.now) }
    ensures refusal { IfOk result (λ l. l.refusal ≡ (contents_of bytes.now).refusal) }
    ensures rewritten { Rewritten bytes.now }
    ensures inverse { Inverse bytes.now }
{
    let mut text = Vec::new(heap);
    match push_records(&mut text, heap, bytes) {
        Ok(()) => Ok(Listing {
            text,
            refusal: None,
        }),
        Err(Ending::Refused(refusal)) => {
            push_fault(&mut text, heap, refusal)?;
            Ok(Listing {
                text,
                refusal: Some(refusal),
            })
        }
        Err(Ending::OutOfMemory(error)) => Err(error),
    }
}
