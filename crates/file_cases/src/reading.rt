// Files that are read, and the refusal and place of each that is not.
use std::test::Fail;
use tariff::{CostRow, Refusal};
use unit_file::{Reader, Record, check_file};

#[test]
fn no_unit_file(rt: HostRuntime) {
    assert_eq!(rt; check_file(&[]), Err(Refusal::NoUnitFile));
    assert_eq!(rt;
        check_file(&[2, 0, 5, 0, 0, 3, 1, 1]),
        Err(Refusal::NoUnitFile)
    );
    let mut long = [0; 65_537];
    long[0] = 1;
    assert_eq!(rt; check_file(&long), Err(Refusal::NoUnitFile));
}

#[test]
fn header_missing_or_repeated(rt: HostRuntime) {
    assert_eq!(rt; check_file(&[1]), Err(Refusal::RecordKind { place: 1 }));
    assert_eq!(rt;
        check_file(&[1, 0, 2, 3, 65]),
        Err(Refusal::RecordKind { place: 1 })
    );
    assert_eq!(rt; check_file(&[1, 0, 5, 0, 0, 3, 1, 1]), Ok(1));
    let twice = [1, 0, 5, 0, 0, 3, 1, 1, 0, 2, 3, 65, 0, 5, 0, 0, 3, 1, 1];
    assert_eq!(rt; check_file(&twice), Err(Refusal::RecordKind { place: 12 }));
    let second_too_long = [1, 0, 5, 0, 0, 3, 1, 1, 0, 6, 0, 0, 3, 1, 1, 0];
    assert_eq!(rt;
        check_file(&second_too_long),
        Err(Refusal::RecordLength { place: 8 })
    );
}

#[test]
fn lengths(rt: HostRuntime) {
    let stray = [1, 0, 5, 0, 0, 3, 1, 1, 0];
    assert_eq!(rt; check_file(&stray), Err(Refusal::RecordLength { place: 8 }));
    let nothing = [1, 0, 5, 0, 0, 3, 1, 1, 0, 0];
    assert_eq!(rt;
        check_file(&nothing),
        Err(Refusal::RecordLength { place: 8 })
    );
    let cut = [1, 0, 5, 0, 0, 3, 1];
    assert_eq!(rt; check_file(&cut), Err(Refusal::RecordLength { place: 1 }));
    let short_unit = [1, 0, 5, 0, 0, 3, 1, 1, 0, 10, 1, 0, 0, 1, 1, 1, 0, 0, 0, 2];
    assert_eq!(rt;
        check_file(&short_unit),
        Err(Refusal::RecordLength { place: 8 })
    );
    let long_cost = [
        1, 0, 5, 0, 0, 3, 1, 1, 0, 10, 2, 3, 1, 1, 1, 0, 0, 3, 232, 0,
    ];
    assert_eq!(rt;
        check_file(&long_cost),
        Err(Refusal::RecordLength { place: 8 })
    );
    let empty_note = [1, 0, 5, 0, 0, 3, 1, 1, 0, 1, 3];
    assert_eq!(rt;
        check_file(&empty_note),
        Err(Refusal::RecordLength { place: 8 })
    );
}

#[test]
fn kinds_and_note_bytes(rt: HostRuntime) {
    let unknown = [1, 0, 5, 0, 0, 3, 1, 1, 0, 1, 4];
    assert_eq!(rt; check_file(&unknown), Err(Refusal::RecordKind { place: 8 }));
    let unknown_and_cut = [1, 0, 5, 0, 0, 3, 1, 1, 0, 2, 4];
    assert_eq!(rt;
        check_file(&unknown_and_cut),
        Err(Refusal::RecordLength { place: 8 })
    );
    let below = [1, 0, 5, 0, 0, 3, 1, 1, 0, 2, 3, 31];
    assert_eq!(rt; check_file(&below), Err(Refusal::RecordKind { place: 8 }));
    let above = [1, 0, 5, 0, 0, 3, 1, 1, 0, 2, 3, 127];
    assert_eq!(rt; check_file(&above), Err(Refusal::RecordKind { place: 8 }));
    let edges = [1, 0, 5, 0, 0, 3, 1, 1, 0, 3, 3, 32, 126];
    assert_eq!(rt; check_file(&edges), Ok(2));
}

#[test]
fn longest_note(rt: HostRuntime) {
    let mut file = [65; 211];
    file[..11].copy_from_slice(&[1, 0, 5, 0, 65, 65, 65, 65, 0, 201, 3]);
    assert_eq!(rt; check_file(&file), Ok(2));
    let mut longer = [65; 212];
    longer[..11].copy_from_slice(&[1, 0, 5, 0, 65, 65, 65, 65, 0, 202, 3]);
    assert_eq!(rt;
        check_file(&longer),
        Err(Refusal::RecordLength { place: 8 })
    );
}

#[test]
fn places(rt: HostRuntime) -> Result<(), Fail> {
    let file = [1, 0, 9, 2, 3, 1, 1, 1, 0, 0, 3, 232, 0, 3, 3, 72, 105];
    let mut reader = Reader::new(&file)?;
    assert_eq!(rt; reader.place(), 1);
    let row = CostRow {
        line: 3,
        subzone: 1,
        day: 1,
        hour: 1,
        amount: 1000,
    };
    assert_eq!(rt; reader.next()?, Some(Record::Cost(row)));
    assert_eq!(rt; reader.place(), 12);
    assert_eq!(rt; reader.next()?, Some(Record::Note(b"Hi")));
    assert_eq!(rt; reader.place(), 17);
    assert!(rt; reader.next()?.is_none());
    assert_eq!(rt; reader.place(), 17);
    Ok(())
}
