// Cases at the edges of a book. A pass cannot be let go, so each test keeps the answers, hands its
// passes in, and then looks at the answers.
#![tactic(auto)]

#[cfg(test)]
mod tests {
    use book::load::RefusedLoad;
    use book::{OpenBook, Pass};
    use sharing::Running;
    use std::test::Fail;
    use tariff::limits::LAST_PASS_NUMBER;
    use tariff::{CostRow, Refusal, Sizes, UnitRow};

    // written out, so that a changed limit is seen
    const LIMIT: u32 = 2_147_483_647;

    const SIZES: Sizes = Sizes {
        customers: 3,
        days: 1,
        subzones: 1,
    };

    const ROW: UnitRow = UnitRow {
        customer: 0,
        day: 1,
        hour: 1,
        subzone: 1,
        usage: 0,
        quantity: 100,
    };

    const COST: CostRow = CostRow {
        line: 3,
        subzone: 1,
        day: 1,
        hour: 1,
        amount: 1000,
    };

    fn sizes(customers: u16, days: u8, subzones: u8) -> Sizes {
        Sizes {
            customers,
            days,
            subzones,
        }
    }

    fn of(hour: u8, quantity: u32) -> UnitRow {
        UnitRow {
            hour,
            quantity,
            ..ROW
        }
    }

    fn cost(line: u8, subzone: u8, day: u8, hour: u8, amount: u32) -> CostRow {
        CostRow {
            line,
            subzone,
            day,
            hour,
            amount,
        }
    }

    #[test]
    fn sizes_and_marks(rt: HostRuntime) -> Result<(), Fail> {
        let mut marks = [9; 64];
        for unfit in [
            sizes(257, 1, 1),
            sizes(0, 1, 1),
            sizes(1, 32, 1),
            sizes(1, 1, 33),
        ] {
            assert!(rt; OpenBook::open(unfit, 1, &mut marks).is_err());
        }
        assert!(rt; OpenBook::open(SIZES, 1, &mut marks[0..63]).is_err());
        assert_eq!(rt; marks[0], 9);
        let _book = OpenBook::open(sizes(256, 31, 32), 1, &mut marks)?;
        assert_eq!(rt; marks, [0; 64]);
        Ok(())
    }

    #[test]
    fn hours_24_and_25(rt: HostRuntime) -> Result<(), Fail> {
        let mut marks = [0; 64];
        let mut units = [ROW; 4];
        let mut book = OpenBook::open(SIZES, 7, &mut marks)?;
        let pass = book.admit(&mut marks, 0)?;
        let last = book.post(&mut units, &marks, &pass, of(24, 1));
        let beyond = book.post(&mut units, &marks, &pass, of(25, 1));
        let none = book.post(&mut units, &marks, &pass, of(0, 1));
        let handed = book.hand_in(&mut marks, pass);
        assert_eq!(rt; last, Ok(0));
        assert_eq!(rt; beyond, Err(Refusal::FieldOutOfRange));
        assert_eq!(rt; none, Err(Refusal::FieldOutOfRange));
        assert_eq!(rt; handed, Ok(()));
        Ok(())
    }

    #[test]
    fn contributors_63_and_64(rt: HostRuntime) -> Result<(), Fail> {
        let mut marks = [0; 64];
        let mut book = OpenBook::open(SIZES, 7, &mut marks)?;
        let refused = book
            .admit(&mut marks, 64)
            .and_then(|pass| book.hand_in(&mut marks, pass));
        let pass = book.admit(&mut marks, 63)?;
        let number = pass.number();
        let removed = book.remove(&mut marks, 64);
        let handed = book.hand_in(&mut marks, pass);
        assert_eq!(rt; refused, Err(Refusal::UnknownContributor));
        assert_eq!(rt; number, 1);
        assert_eq!(rt; removed, Err(Refusal::UnknownContributor));
        assert_eq!(rt; handed, Ok(()));
        assert_eq!(rt; book.remove(&mut marks, 63), Err(Refusal::NotAdmitted));
        Ok(())
    }

    fn use_numbers(book: &mut OpenBook, marks: &mut [u32], count: u32) -> Result<(), Refusal> {
        for _ in 0..count {
            let pass = book.admit(marks, 0)?;
            book.hand_in(marks, pass)?;
        }
        Ok(())
    }

    // Each admit takes a number, and only admits lead to the last one.
    #[test]
    fn the_last_pass_number(rt: HostRuntime) -> Result<(), Fail> {
        let mut marks = [0; 64];
        let mut book = OpenBook::open(SIZES, 7, &mut marks)?;
        use_numbers(&mut book, &mut marks, LAST_PASS_NUMBER - 1)?;
        let pass = book.admit(&mut marks, 0)?;
        let number = pass.number();
        let handed = book.hand_in(&mut marks, pass);
        let refused = book
            .admit(&mut marks, 0)
            .and_then(|pass| book.hand_in(&mut marks, pass));
        assert_eq!(rt; number, LAST_PASS_NUMBER);
        assert_eq!(rt; handed, Ok(()));
        assert_eq!(rt; refused, Err(Refusal::PassNumbersUsedUp));
        Ok(())
    }

    // Both books admit the same contributor first, so the passes differ in the book alone.
    #[test]
    fn a_pass_of_another_book(rt: HostRuntime) -> Result<(), Fail> {
        let mut marks = [0; 64];
        let mut others = [0; 64];
        let mut units = [ROW; 4];
        let mut book = OpenBook::open(SIZES, 7, &mut marks)?;
        let mut other = OpenBook::open(SIZES, 8, &mut others)?;
        let pass = book.admit(&mut marks, 5)?;
        // no `?`: the other pass has to be handed in before an error goes on
        let stranger = match other.admit(&mut others, 5) {
            Ok(stranger) => stranger,
            Err(refusal) => {
                assert_eq!(rt; book.hand_in(&mut marks, pass), Ok(()));
                assert_eq!(rt; Err(refusal), Ok(()));
                return Ok(());
            }
        };
        let posted = book.post(&mut units, &marks, &stranger, ROW);
        let spent = book.hand_in(&mut marks, stranger);
        let handed = book.hand_in(&mut marks, pass);
        assert_eq!(rt; posted, Err(Refusal::PassNotValid));
        assert_eq!(rt; spent, Err(Refusal::PassNotValid));
        assert_eq!(rt; handed, Ok(()));
        Ok(())
    }

    #[test]
    fn tables_one_row_short(rt: HostRuntime) -> Result<(), Fail> {
        let mut marks = [0; 64];
        let mut units = [ROW; 4];
        let mut short_table = [ROW; 1];
        let mut book = OpenBook::open(SIZES, 7, &mut marks)?;
        let pass = book.admit(&mut marks, 0)?;
        let first = book.post(&mut units, &marks, &pass, ROW);
        let second = book.post(&mut units, &marks, &pass, ROW);
        let posted = book.post(&mut short_table, &marks, &pass, ROW);
        let corrected = book.correct(&mut short_table, &marks, &pass, 0, 1);
        let handed = book.hand_in(&mut marks, pass);
        assert_eq!(rt; first, Ok(0));
        assert_eq!(rt; second, Ok(1));
        assert_eq!(rt; posted, Err(Refusal::TableUnfit));
        assert_eq!(rt; corrected, Err(Refusal::TableUnfit));
        assert_eq!(rt; short_table[0].quantity, 100);
        assert_eq!(rt; handed, Ok(()));
        Ok(())
    }

    #[test]
    fn marks_63_and_65(rt: HostRuntime) -> Result<(), Fail> {
        let mut marks = [0; 64];
        let mut few = [0; 63];
        let mut many = [0; 65];
        let mut costs = [COST; 2];
        let mut book = OpenBook::open(SIZES, 7, &mut marks)?;
        let pass = book.admit(&mut marks, 0)?;
        let few_marks = book.add_cost(&mut costs, &few, &pass, COST);
        let many_marks = book.add_cost(&mut costs, &many, &pass, COST);
        let removed = book.remove(&mut few, 0);
        let spent = book.hand_in(&mut many, pass);
        assert_eq!(rt; few_marks, Err(Refusal::TableUnfit));
        assert_eq!(rt; many_marks, Err(Refusal::TableUnfit));
        assert_eq!(rt; removed, Err(Refusal::TableUnfit));
        assert_eq!(rt; spent, Err(Refusal::TableUnfit));
        assert_eq!(rt; marks[0], 1);
        assert!(rt; book.freeze(&few).is_err());
        Ok(())
    }

    // A bill needs the rows that the book counts, and a place of each column for each customer.
    #[test]
    fn bills_of_short_tables_and_wrong_columns(rt: HostRuntime) -> Result<(), Fail> {
        let mut marks = [0; 64];
        let mut units = [ROW; 2];
        let mut costs = [COST; 2];
        let mut book = OpenBook::open(SIZES, 7, &mut marks)?;
        let pass = book.admit(&mut marks, 0)?;
        let posted = book.post(&mut units, &marks, &pass, ROW);
        let added = book.add_cost(&mut costs, &marks, &pass, COST);
        let handed = book.hand_in(&mut marks, pass);
        assert_eq!(rt; posted, Ok(0));
        assert_eq!(rt; added, Ok(0));
        assert_eq!(rt; handed, Ok(()));
        let Ok(frozen) = book.freeze(&marks) else {
            assert!(rt; false);
            return Ok(());
        };
        let mut a = [7; 3];
        let mut b = [7; 3];
        let mut c = [7; 3];
        let mut wide = [7; 4];
        let rule = &mut Running;
        let no_units = frozen.bill(rule, &units[0..0], &costs, 3, &mut a, &mut b, &mut c);
        assert_eq!(rt; no_units.err(), Some(Refusal::TableUnfit));
        let no_costs = frozen.bill(rule, &units, &costs[0..0], 3, &mut a, &mut b, &mut c);
        assert_eq!(rt; no_costs.err(), Some(Refusal::TableUnfit));
        let too_wide = frozen.bill(rule, &units, &costs, 3, &mut a, &mut wide, &mut c);
        assert_eq!(rt; too_wide.err(), Some(Refusal::TableUnfit));
        assert_eq!(rt; a[0], 7);
        assert_eq!(rt; wide[3], 7);
        let fitting = frozen.bill(rule, &units[0..1], &costs[0..1], 3, &mut a, &mut b, &mut c);
        assert_eq!(rt; fitting.err(), None);
        assert_eq!(rt; a[0], 1000);
        Ok(())
    }

    #[test]
    fn full_tables_and_sums_at_the_limit(rt: HostRuntime) -> Result<(), Fail> {
        let mut marks = [0; 64];
        let mut units = [ROW; 2];
        let mut costs = [COST; 3];
        let mut book = OpenBook::open(SIZES, 7, &mut marks)?;
        let pass = book.admit(&mut marks, 0)?;
        let most = book.post(&mut units, &marks, &pass, of(1, LIMIT - 1));
        let above = book.post(&mut units, &marks, &pass, of(2, 2));
        let at_limit = book.post(&mut units, &marks, &pass, of(2, 1));
        let full = book.post(&mut units, &marks, &pass, of(3, 0));
        let corrected_above = book.correct(&mut units, &marks, &pass, 1, 2);
        let corrected = book.correct(&mut units, &marks, &pass, 0, LIMIT - 2);
        let no_row = book.correct(&mut units, &marks, &pass, 2, 0);
        let too_large = book.correct(&mut units, &marks, &pass, 9, LIMIT + 1);
        let cost_most = book.add_cost(&mut costs, &marks, &pass, cost(3, 1, 1, 1, LIMIT));
        let cost_above = book.add_cost(&mut costs, &marks, &pass, cost(3, 1, 1, 2, 1));
        let other_line = book.add_cost(&mut costs, &marks, &pass, cost(1, 1, 1, 2, 1));
        let handed = book.hand_in(&mut marks, pass);
        assert_eq!(rt; most, Ok(0));
        assert_eq!(rt; above, Err(Refusal::SumTooLarge));
        assert_eq!(rt; at_limit, Ok(1));
        assert_eq!(rt; full, Err(Refusal::TableFull));
        assert_eq!(rt; corrected_above, Err(Refusal::SumTooLarge));
        assert_eq!(rt; corrected, Ok(()));
        assert_eq!(rt; no_row, Err(Refusal::NoSuchRow));
        assert_eq!(rt; too_large, Err(Refusal::FieldOutOfRange));
        assert_eq!(rt; cost_most, Ok(0));
        assert_eq!(rt; cost_above, Err(Refusal::SumTooLarge));
        assert_eq!(rt; other_line, Ok(1));
        assert_eq!(rt; handed, Ok(()));
        Ok(())
    }

    #[test]
    fn a_field_that_a_line_does_not_need(rt: HostRuntime) -> Result<(), Fail> {
        let mut marks = [0; 64];
        let mut costs = [COST; 8];
        let mut book = OpenBook::open(SIZES, 7, &mut marks)?;
        let pass = book.admit(&mut marks, 0)?;
        let daily_hour = book.add_cost(&mut costs, &marks, &pass, cost(5, 1, 1, 1, 1));
        let period_day = book.add_cost(&mut costs, &marks, &pass, cost(6, 0, 1, 0, 1));
        let state_subzone = book.add_cost(&mut costs, &marks, &pass, cost(2, 1, 1, 1, 1));
        let nothing = book.add_cost(&mut costs, &marks, &pass, cost(5, 1, 1, 0, 0));
        let no_line = book.add_cost(&mut costs, &marks, &pass, cost(8, 0, 0, 0, 1));
        let daily = book.add_cost(&mut costs, &marks, &pass, cost(5, 1, 1, 0, 1));
        let period = book.add_cost(&mut costs, &marks, &pass, cost(6, 0, 0, 0, 1));
        let handed = book.hand_in(&mut marks, pass);
        assert_eq!(rt; daily_hour, Err(Refusal::FieldOutOfRange));
        assert_eq!(rt; period_day, Err(Refusal::FieldOutOfRange));
        assert_eq!(rt; state_subzone, Err(Refusal::FieldOutOfRange));
        assert_eq!(rt; nothing, Err(Refusal::FieldOutOfRange));
        assert_eq!(rt; no_line, Err(Refusal::FieldOutOfRange));
        assert_eq!(rt; daily, Ok(0));
        assert_eq!(rt; period, Ok(1));
        assert_eq!(rt; handed, Ok(()));
        Ok(())
    }

    // A header, a row, a note, and a row with hour 25.
    const FILE: [u8; 38] = [
        1, 0, 5, 0, 0, 3, 1, 1, 0, 11, 1, 0, 0, 1, 1, 1, 0, 0, 0, 2, 88, 0, 2, 3, 65, 0, 11, 1, 0,
        1, 1, 25, 1, 0, 0, 0, 1, 44,
    ];

    fn loaded(
        book: &mut OpenBook,
        units: &mut [UnitRow],
        costs: &mut [CostRow],
        marks: &[u32],
        pass: &Pass,
        bytes: &[u8],
    ) -> (usize, u8, usize, Option<RefusedLoad>) {
        let report = book.load(units, costs, marks, pass, bytes);
        (report.rows, report.number(), report.place, report.refused)
    }

    #[test]
    fn a_load_that_stops_half_way(rt: HostRuntime) -> Result<(), Fail> {
        let mut marks = [0; 64];
        let mut units = [ROW; 4];
        let mut costs = [COST; 2];
        let mut book = OpenBook::open(SIZES, 7, &mut marks)?;
        let pass = book.admit(&mut marks, 0)?;
        let half = loaded(&mut book, &mut units, &mut costs, &marks, &pass, &FILE);
        let cut = loaded(
            &mut book,
            &mut units,
            &mut costs,
            &marks,
            &pass,
            &FILE[0..24],
        );
        let whole = loaded(
            &mut book,
            &mut units,
            &mut costs,
            &marks,
            &pass,
            &FILE[0..25],
        );
        let empty = loaded(&mut book, &mut units, &mut costs, &marks, &pass, &[]);
        let version = loaded(&mut book, &mut units, &mut costs, &marks, &pass, &[1]);
        let other_sizes = loaded(
            &mut book,
            &mut units,
            &mut costs,
            &marks,
            &pass,
            &[1, 0, 5, 0, 0, 4, 1, 1],
        );
        let short = loaded(
            &mut book,
            &mut units[0..1],
            &mut costs,
            &marks,
            &pass,
            &FILE,
        );
        let quantity = units[0].quantity;
        let handed = book.hand_in(&mut marks, pass);
        let unfit_row = RefusedLoad::Book(Refusal::FieldOutOfRange);
        let unfit_table = RefusedLoad::Book(Refusal::TableUnfit);
        let no_file = RefusedLoad::File(Refusal::NoUnitFile);
        let cut_short = RefusedLoad::File(Refusal::RecordLength { place: 21 });
        let no_header = RefusedLoad::File(Refusal::RecordKind { place: 1 });
        assert_eq!(rt; half, (1, 8, 25, Some(unfit_row)));
        assert_eq!(rt; cut, (1, 17, 21, Some(cut_short)));
        assert_eq!(rt; whole, (1, 0, 25, None));
        assert_eq!(rt; empty, (0, 16, 0, Some(no_file)));
        assert_eq!(rt; version, (0, 18, 1, Some(no_header)));
        assert_eq!(rt; other_sizes, (0, 8, 1, Some(unfit_row)));
        assert_eq!(rt; short, (0, 2, 0, Some(unfit_table)));
        assert_eq!(rt; quantity, 600);
        assert_eq!(rt; handed, Ok(()));
        Ok(())
    }
}
