// Writes a unit file into a caller's buffer, record by record.
ghost use Rattle.std.specs.Prelude.{◌≡◌, ◌+◌, ◌≤◌, List, [], ◌∷◌, ◌++◌, length, take, IfOk, Ok, OnOk};
ghost use Rattle.tariff.specs.Limits.{most_file_bytes};
ghost use Rattle.tariff.specs.Refusals.{answer, unless};
ghost use Rattle.buffer.specs.Putting.{pasted, put_refusal as buffer_refusal};
ghost use Rattle.unit_file.specs.Laws.{ReadBack};
ghost use Rattle.unit_file.specs.Reading.{records_of};
ghost use Rattle.unit_file.specs.Records.{Item, header, unit, cost, note, item_of, bytes_of, file_of};
ghost use Rattle.unit_file.specs.Writing.{bad_note_length, bad_note_bytes, file_refusal, put_refusal, begin_refusal, finish_refusal, WrittenAs};

use crate::reader::{VERSION, has_unprintable, is_misplaced};
use crate::record::{Kind, Record};
use buffer::put_bytes;
use tariff::limits::{MOST_FILE_BYTES, MOST_NOTE_BYTES};
use tariff::{CostRow, Refusal, Sizes, UnitRow};

// Stands at the place where the next record goes. The buffer is the caller's, and is lent to each
// call: so each contract says what it then holds.
#[derive(Drop)]
pub struct Writer {
    place: usize,
}

fn header_bytes(sizes: Sizes) -> [u8; 7]
    ensures { result ≡ bytes_of (header sizes) }
{
    let [high, low] = sizes.customers.to_be_bytes();
    [
        0,
        5,
        Kind::Header as u8,
        high,
        low,
        sizes.days,
        sizes.subzones,
    ]
}

fn unit_bytes(row: UnitRow) -> [u8; 13]
    ensures { result ≡ bytes_of (unit row) }
{
    let [high, low] = row.customer.to_be_bytes();
    let [q0, q1, q2, q3] = row.quantity.to_be_bytes();
    [
        0,
        11,
        Kind::Unit as u8,
        high,
        low,
        row.day,
        row.hour,
        row.subzone,
        row.usage,
        q0,
        q1,
        q2,
        q3,
    ]
}

fn cost_bytes(row: CostRow) -> [u8; 11]
    ensures { result ≡ bytes_of (cost row) }
{
    let [a0, a1, a2, a3] = row.amount.to_be_bytes();
    [
        0,
        9,
        Kind::Cost as u8,
        row.line,
        row.subzone,
        row.day,
        row.hour,
        a0,
        a1,
        a2,
        a3,
    ]
}

// The text goes first: where it fits, the three bytes before it do too. `out` and `place` are no
// struct: the buffer is lent to each call.
fn put_note(out: &mut [u8], place: usize, text: &[u8]) -> Result<usize, Refusal>
    requires { place + length (bytes_of (note text.now)) ≤ most_file_bytes }
    ensures answers { result ≡ answer (buffer_refusal (length out.old) place (bytes_of (note text.now))) (place + length (bytes_of (note text.now))) }
    ensures out { out.new ≡ unless (buffer_refusal (length out.old) place (bytes_of (note text.now))) out.old (pasted out.old place (bytes_of (note text.now))) }
{
    let [high, low] = (1 + text.len() as u16).to_be_bytes();
    let end = put_bytes(out, place + 3, text)?;
    put_bytes(out, place, &[high, low, Kind::Note as u8])?;
    Ok(end)
}

// Writes the bytes of a record from a place on; a buffer too short is refused and stays as it was.
fn put_record(out: &mut [u8], place: usize, record: Record) -> Result<usize, Refusal>
    requires { place + length (bytes_of (item_of «record»)) ≤ most_file_bytes }
    ensures answers { result ≡ answer (buffer_refusal (length out.old) place (bytes_of (item_of «record».entry))) (place + length (bytes_of (item_of «record».entry))) }
    ensures out { out.new ≡ unless (buffer_refusal (length out.old) place (bytes_of (item_of «record».entry))) out.old (pasted out.old place (bytes_of (item_of «record».entry))) }
{
    match record {
        Record::Header(sizes) => put_bytes(out, place, &header_bytes(sizes)),
        Record::Unit(row) => put_bytes(out, place, &unit_bytes(row)),
        Record::Cost(row) => put_bytes(out, place, &cost_bytes(row)),
        Record::Note(note) => put_note(out, place, note),
    }
}

// How many bytes a record takes.
fn length_of(record: Record) -> usize
    ensures { result ≡ length (bytes_of (item_of «record».entry)) }
{
    match record {
        Record::Header(_) => 7,
        Record::Unit(_) => 13,
        Record::Cost(_) => 11,
        Record::Note(note) => 3 + note.len(),
    }
}

fn has_bad_note_length(record: Record) -> bool
    ensures { result ≡ bad_note_length (item_of «record».entry) }
{
    match record {
        Record::Note(note) => note.is_empty() || note.len() > MOST_NOTE_BYTES,
        _ => false,
    }
}

fn has_bad_note_bytes(record: Record) -> bool
    ensures { result ≡ bad_note_bytes (item_of «record».entry) }
{
    match record {
        Record::Note(note) => has_unprintable(note),
        _ => false,
    }
}

// Whether a record may stand at a place of a file.
fn check_record(place: usize, record: Record) -> Result<(), Refusal>
    ensures { result ≡ answer (file_refusal place (item_of «record».entry)) tt }
{
    if place > MOST_FILE_BYTES || length_of(record) > MOST_FILE_BYTES - place {
        return Err(Refusal::NoUnitFile);
    }
    if has_bad_note_length(record) {
        return Err(Refusal::RecordLength { place });
    }
    if has_bad_note_bytes(record) || is_misplaced(place, Some(record)) {
        return Err(Refusal::RecordKind { place });
    }
    Ok(())
}

impl Writer {
    // Begins a file with its version byte.
    pub fn new(out: &mut [u8]) -> Result<Writer, Refusal>
        ensures answers { result ≡ answer (begin_refusal (length out.old)) (record { place = 1 }) }
        ensures out { out.new ≡ unless (begin_refusal (length out.old)) out.old (pasted out.old 0 (1 ∷ [])) }
        ensures written { IfOk result (λ writer. WrittenAs [] writer.place out.new) }
    {
        let place = put_bytes(out, 0, &[VERSION])?;
        Ok(Writer { place })
    }

    // The place where the next record goes: how many bytes are written.
    pub fn place(&self) -> usize
        ensures { result ≡ self.now.place }
    {
        self.place // behind the last record
    }

    // Writes one record behind the others; a refused record leaves buffer and place as they were.
    pub fn put(&mut self, out: &mut [u8], record: Record) -> Result<(), Refusal>
        ensures answers { result ≡ answer (put_refusal self.old.place (length out.old) (item_of «record».entry)) tt }
        ensures out { out.new ≡ unless (put_refusal self.old.place (length out.old) (item_of «record».entry)) out.old (pasted out.old self.old.place (bytes_of (item_of «record».entry))) }
        ensures place { self.new.place ≡ unless (put_refusal self.old.place (length out.old) (item_of «record».entry)) self.old.place (self.old.place + length (bytes_of (item_of «record».entry))) }
        ensures written { OnOk result ((items : List Item) → WrittenAs items self.old.place out.old → WrittenAs (items ++ item_of «record».entry ∷ []) self.new.place out.new) }
    {
        check_record(self.place, record)?;
        self.place = put_record(out, self.place, record)?;
        Ok(())
    }

    // Ends the file: how many bytes of the buffer it takes. It has to have its header.
    pub fn finish(self, out: &[u8]) -> Result<usize, Refusal>
        ensures answers { result ≡ answer (finish_refusal self.place) self.place }
        ensures written { IfOk result (λ n. (items : List Item) → WrittenAs items self.place out.now → (take n out.now ≡ file_of items) × (records_of (take n out.now) ≡ Ok items)) }
        ensures read_back { ReadBack }
    {
        if self.place <= 1 {
            return Err(Refusal::RecordKind { place: 1 });
        }
        Ok(self.place)
    }
}
