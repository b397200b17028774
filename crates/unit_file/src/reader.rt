// Reads a unit file, record by record, and a whole file.
ghost use Rattle.std.specs.Prelude.{◌≡◌, ◌+◌, true, false, length, Some, None, MatchResult, MatchOption};
ghost use Rattle.std.specs.Option.{option_map};
ghost use Rattle.unit_file.specs.Reading.{sizes_in, unit_in, cost_in, item_by, fits_kind, bad_length, bad_kind, Framed, record_at, next_place, ordered_at, place_in_order, open_refusal, misplaced, records_of, counted, said};
ghost use Rattle.unit_file.specs.Laws.{Rewritten};
ghost use Rattle.unit_file.specs.Records.{item_of, unprintable};

use crate::record::{Kind, Record, UnknownKind};
use tariff::limits::{MOST_FILE_BYTES, MOST_NOTE_BYTES};
use tariff::{CostRow, Refusal, Sizes, UnitRow};

// The first byte of a unit file.
pub(crate) const VERSION: u8 = 1;

// Stands at a place of borrowed bytes; `new` sets it behind the version byte.
#[derive(Drop)]
pub struct Reader<'a> {
    bytes: &'a [u8],
    place: usize,
}

fn sizes_in(fields: &[u8]) -> Sizes
    requires { length fields.now ≡ 4 }
    ensures { result ≡ sizes_in fields.now }
{
    Sizes {
        customers: u16::from_be_bytes([fields[0], fields[1]]),
        days: fields[2],
        subzones: fields[3],
    }
}

fn unit_in(fields: &[u8]) -> UnitRow
    requires { length fields.now ≡ 10 }
    ensures { result ≡ unit_in fields.now }
{
    UnitRow {
        customer: u16::from_be_bytes([fields[0], fields[1]]),
        day: fields[2],
        hour: fields[3],
        subzone: fields[4],
        usage: fields[5],
        quantity: u32::from_be_bytes([fields[6], fields[7], fields[8], fields[9]]),
    }
}

fn cost_in(fields: &[u8]) -> CostRow
    requires { length fields.now ≡ 8 }
    ensures { result ≡ cost_in fields.now }
{
    CostRow {
        line: fields[0],
        subzone: fields[1],
        day: fields[2],
        hour: fields[3],
        amount: u32::from_be_bytes([fields[4], fields[5], fields[6], fields[7]]),
    }
}

pub(crate) fn has_unprintable(note: &[u8]) -> bool
    ensures { result ≡ unprintable note.now }
{
    note.iter().any(|b| !(b' '..=b'~').contains(b))
}

// Whether a record of a kind byte may have so many bytes behind its length. An unknown kind has
// no length of its own, and is refused only after a wrong length: so the kind stays its byte here.
fn fits_kind(kind: u8, len: usize) -> bool
    ensures { result ≡ fits_kind kind len }
{
    match Kind::try_from(kind) {
        Ok(Kind::Header) => len == 5,
        Ok(Kind::Unit) => len == 11,
        Ok(Kind::Cost) => len == 9,
        Ok(Kind::Note) => (2..=1 + MOST_NOTE_BYTES).contains(&len),
        Err(UnknownKind) => true,
    }
}

// The kind byte and the fields of the record in front, if all of it is there and it is as long as
// its kind may be.
fn framed<'a>(rest: &'a [u8]) -> Option<(u8, &'a [u8])>
    ensures { MatchOption result (bad_length rest.now ≡ true) (λ found. Framed rest.now found.0 found.1.now) }
{
    let (len, behind) = rest.split_first_chunk()?;
    let len = u16::from_be_bytes(*len) as usize;
    let (kind, fields) = behind.get(..len)?.split_first()?;
    if !fits_kind(*kind, len) {
        return None;
    }
    Some((*kind, fields))
}

// The record of a kind byte, from fields that have the length of that kind.
fn decode<'a>(kind: u8, fields: &'a [u8]) -> Option<Record<'a>>
    requires { fits_kind kind (length fields.now + 1) ≡ true }
    ensures { MatchOption result (bad_kind kind fields.now ≡ true) (λ found. (bad_kind kind fields.now ≡ false) × (item_of found ≡ item_by kind fields.now)) }
{
    match Kind::try_from(kind).ok()? {
        Kind::Header => Some(Record::Header(sizes_in(fields))),
        Kind::Unit => Some(Record::Unit(unit_in(fields))),
        Kind::Cost => Some(Record::Cost(cost_in(fields))),
        Kind::Note if has_unprintable(fields) => None,
        Kind::Note => Some(Record::Note(fields)),
    }
}

// Whether what was found at a place breaks the header's order; at place 1 nothing else may stand.
pub(crate) fn is_misplaced(place: usize, found: Option<Record>) -> bool
    ensures { result ≡ misplaced place (option_map item_of found.entry) }
{
    match found {
        Some(Record::Header(_)) => place != 1,
        _ => place == 1,
    }
}

impl<'a> Reader<'a> {
    // A reader that stands at the first record.
    pub fn new(bytes: &'a [u8]) -> Result<Reader<'a>, Refusal>
        ensures { MatchResult result (λ o. (open_refusal bytes.now ≡ None) × (o.bytes.now ≡ bytes.now) × (o.place ≡ 1)) (λ e. open_refusal bytes.now ≡ Some e) }
    {
        if bytes.first() != Some(&VERSION) || bytes.len() > MOST_FILE_BYTES {
            return Err(Refusal::NoUnitFile);
        }
        Ok(Reader { bytes, place: 1 })
    }

    // The byte at which the reader stands.
    pub fn place(&self) -> usize
        ensures { result ≡ self.now.place }
    {
        self.place // of the next record
    }

    // The next record, whatever its kind, and none at the end; the reader stays where a record is
    // refused.
    pub fn next(&mut self) -> Result<Option<Record<'a>>, Refusal>
        ensures answers { said result ≡ record_at self.old.bytes.now self.old.place }
        ensures place { self.new.place ≡ next_place self.old.bytes.now self.old.place }
        ensures bytes { self.new.bytes.now ≡ self.old.bytes.now }
    {
        let place = self.place;
        if place >= self.bytes.len() {
            return Ok(None);
        }
        let (kind, fields) = framed(&self.bytes[place..]).ok_or(Refusal::RecordLength { place })?;
        let record = decode(kind, fields).ok_or(Refusal::RecordKind { place })?;
        self.place = place + 3 + fields.len();
        Ok(Some(record))
    }

    // The next record of a whole file, in which the first record is the header and no other is.
    pub fn next_in_order(&mut self) -> Result<Option<Record<'a>>, Refusal>
        ensures answers { said result ≡ ordered_at self.old.bytes.now self.old.place }
        ensures place { self.new.place ≡ place_in_order self.old.bytes.now self.old.place }
        ensures bytes { self.new.bytes.now ≡ self.old.bytes.now }
    {
        let place = self.place;
        let found = self.next()?;
        if is_misplaced(place, found) {
            self.place = place;
            return Err(Refusal::RecordKind { place });
        }
        Ok(found)
    }
}

// Reads a whole file: how many records it has, or the first refusal.
pub fn check_file(bytes: &[u8]) -> Result<usize, Refusal>
    ensures counts { result ≡ counted (records_of bytes.now) }
    ensures rewritten { Rewritten bytes.now }
{
    let mut reader = Reader::new(bytes)?;
    let mut count = 0;
    // no Iterator: a refused record leaves the reader where it is, and would be answered without end
    while let Some(_) = reader.next_in_order()? {
        count += 1;
    }
    Ok(count)
}
