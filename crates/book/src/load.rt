// A unit file is loaded into an open book through a valid pass.
ghost use Rattle.std.specs.Prelude.{◌≡◌, ◌<◌, ◌≤◌, length, None};
ghost use Rattle.std.specs.Option.{option_map};
ghost use Rattle.tariff.specs.Refusals.{answer};
ghost use Rattle.unit_file.specs.Records.{item_of};
ghost use Rattle.book_rules.specs.Run.{opened};
ghost use Rattle.book.specs.Load.{refusal_of, report_number, report_refusal, reported, ended, call_for, load_from, Took, Done, header_in, load_refusal, load_of};
ghost use Rattle.book.specs.Shown.{numbers_of, open_book, pass_of};

use crate::states::{Numbers, OpenBook, Pass};
use tariff::{CostRow, Refusal, Sizes, UnitRow};
use unit_file::reader::Reader;
use unit_file::record::Record;

// The refusal that stopped a load: the file's, by its form, or the book's.
#[derive(Clone, Copy, PartialEq, Eq, Debug)]
pub enum RefusedLoad {
    File(Refusal),
    Book(Refusal),
}

// What a load came to: the rows of both kinds that it posted, the byte place that it reached, and
// what stopped it there, if anything did.
#[derive(Clone, Copy, PartialEq, Eq, Debug)]
pub struct LoadReport {
    pub rows: usize,
    pub place: usize,
    pub refused: Option<RefusedLoad>,
}

impl RefusedLoad {
    // The refusal, whoever gave it.
    pub fn refusal(self) -> Refusal
        ensures { result ≡ refusal_of self }
    {
        match self {
            RefusedLoad::File(refusal) | RefusedLoad::Book(refusal) => refusal,
        }
    }
}

impl LoadReport {
    // The refusal that stopped the load, if one did.
    pub fn refusal(&self) -> Option<Refusal>
        ensures { result ≡ report_refusal self.now }
    {
        self.refused.map(RefusedLoad::refusal)
    }

    // The number of the refusal, or 0 where nobody refused: no Option, since the rules give such a
    // load the number 0.
    pub fn number(&self) -> u8
        ensures { result ≡ report_number (report_refusal self.now) }
    {
        self.refusal().map_or(0, Refusal::number)
    }
}

// The sizes in the first record of a file, which has to be the header.
pub fn header_of(first: Option<Record>) -> Result<Sizes, Refusal>
    ensures { result ≡ header_in (option_map item_of first.entry) }
{
    let Some(Record::Header(sizes)) = first else {
        return Err(Refusal::RecordKind { place: 1 });
    };
    Ok(sizes)
}

impl Numbers {
    // Refuses a load before any byte is read: by the tables' lengths, and then by the pass.
    fn check_load(
        &self,
        units: &[UnitRow],
        costs: &[CostRow],
        marks: &[u32],
        pass: &Pass,
    ) -> Result<(), Refusal>
        ensures { result ≡ answer (load_refusal (opened (numbers_of self.now) units.now costs.now marks.now) (pass_of pass.now)) tt }
    {
        if self.outnumber(units.len(), costs.len()) {
            return Err(Refusal::TableUnfit);
        }
        self.check_pass(marks, pass)
    }
}

impl OpenBook {
    // Does what a record of a file asks for, and answers how many rows that is.
    fn load_record(
        &mut self,
        units: &mut [UnitRow],
        costs: &mut [CostRow],
        marks: &[u32],
        pass: &Pass,
        record: Record,
    ) -> Result<usize, Refusal>
        ensures { Took (call_for (pass_of pass.now) (item_of «record».entry)) (opened (open_book self.old) units.old costs.old marks.now) result (opened (open_book self.new) units.new costs.new marks.now) }
    {
        match record {
            Record::Unit(row) => self.post(units, marks, pass, row).map(|_| 1),
            Record::Cost(row) => self.add_cost(costs, marks, pass, row).map(|_| 1),
            _ => Ok(0),
        }
    }

    // Posts the rows of a file from the reader's place on, up to the first refusal. The report has
    // the rows and the place so far.
    fn load_rows(
        &mut self,
        units: &mut [UnitRow],
        costs: &mut [CostRow],
        marks: &[u32],
        pass: &Pass,
        mut reader: Reader,
        report: &mut LoadReport,
    ) -> Result<(), RefusedLoad>
        requires none { report.old.rows ≡ 0 }
        requires behind { 1 < reader.place }
        requires inside { reader.place ≤ length reader.bytes.now }
        ensures { Done (opened (open_book self.old) units.old costs.old marks.now) (load_from (length reader.entry.bytes.now) reader.entry.bytes.now (pass_of pass.now) (opened (open_book self.old) units.old costs.old marks.now) reader.entry.place 0) (opened (open_book self.new) units.new costs.new marks.now) (ended report.new.rows report.new.place result) }
    {
        report.place = reader.place();
        while let Some(record) = reader.next_in_order().map_err(RefusedLoad::File)? {
            let taken = self.load_record(units, costs, marks, pass, record);
            report.rows += taken.map_err(RefusedLoad::Book)?;
            report.place = reader.place();
        }
        Ok(())
    }

    // Loads a file behind a report in which nothing has been done.
    fn load_file(
        &mut self,
        units: &mut [UnitRow],
        costs: &mut [CostRow],
        marks: &[u32],
        pass: &Pass,
        bytes: &[u8],
        report: &mut LoadReport,
    ) -> Result<(), RefusedLoad>
        requires { report.old ≡ reported 0 0 None }
        ensures { Done (opened (open_book self.old) units.old costs.old marks.now) (load_of (opened (open_book self.old) units.old costs.old marks.now) (pass_of pass.now) bytes.now) (opened (open_book self.new) units.new costs.new marks.now) (ended report.new.rows report.new.place result) }
    {
        let checked = self.numbers.check_load(units, costs, marks, pass);
        checked.map_err(RefusedLoad::Book)?;
        let mut reader = Reader::new(bytes).map_err(RefusedLoad::File)?;
        report.place = reader.place();
        let first = reader.next().map_err(RefusedLoad::File)?;
        let sizes = header_of(first).map_err(RefusedLoad::File)?;
        if sizes != self.numbers.sizes.sizes() {
            return Err(RefusedLoad::Book(Refusal::FieldOutOfRange));
        }
        self.load_rows(units, costs, marks, pass, reader, report)
    }

    // Loads a file: its rows are posted up to the first refusal, and what was posted stays.
    pub fn load(
        &mut self,
        units: &mut [UnitRow],
        costs: &mut [CostRow],
        marks: &[u32],
        pass: &Pass,
        bytes: &[u8],
    ) -> LoadReport
        ensures { Done (opened (open_book self.old) units.old costs.old marks.now) (load_of (opened (open_book self.old) units.old costs.old marks.now) (pass_of pass.now) bytes.now) (opened (open_book self.new) units.new costs.new marks.now) result }
    {
        let mut report = LoadReport {
            rows: 0,
            place: 0,
            refused: None,
        };
        let loaded = self.load_file(units, costs, marks, pass, bytes, &mut report);
        report.refused = loaded.err();
        report
    }
}
