// Records that are written, and the refusal of each that is not.
use std::test::Fail;
use tariff::{Refusal, Sizes, UnitRow};
use unit_file::{Record, Writer, check_file};

fn header() -> Record<'static> {
    Record::Header(Sizes {
        customers: 258,
        days: 31,
        subzones: 32,
    })
}

fn put_notes(writer: &mut Writer, out: &mut [u8], count: usize) -> Result<(), Refusal> {
    for _ in 0..count {
        writer.put(out, Record::Note(&[65; 200]))?;
    }
    Ok(())
}

#[test]
fn no_room(rt: HostRuntime) -> Result<(), Fail> {
    assert_eq!(rt; Writer::new(&mut []).is_ok(), false);
    let mut out = [9; 7];
    let mut writer = Writer::new(&mut out)?;
    assert_eq!(rt;
        writer.put(&mut out, header()),
        Err(Refusal::BufferTooShort)
    );
    assert_eq!(rt; writer.place(), 1);
    assert!(rt; out == [1, 9, 9, 9, 9, 9, 9]);
    assert_eq!(rt; writer.finish(&out), Err(Refusal::RecordKind { place: 1 }));
    Ok(())
}

#[test]
fn order_and_notes(rt: HostRuntime) -> Result<(), Fail> {
    let mut out = [9; 300];
    let mut writer = Writer::new(&mut out)?;
    assert_eq!(rt;
        writer.put(&mut out, Record::Note(b"Hi")),
        Err(Refusal::RecordKind { place: 1 })
    );
    writer.put(&mut out, header())?;
    assert_eq!(rt;
        writer.put(&mut out, header()),
        Err(Refusal::RecordKind { place: 8 })
    );
    assert_eq!(rt;
        writer.put(&mut out, Record::Note(b"")),
        Err(Refusal::RecordLength { place: 8 })
    );
    assert_eq!(rt;
        writer.put(&mut out, Record::Note(&[65; 201])),
        Err(Refusal::RecordLength { place: 8 })
    );
    assert_eq!(rt;
        writer.put(&mut out, Record::Note(&[31])),
        Err(Refusal::RecordKind { place: 8 })
    );
    writer.put(&mut out, Record::Note(&[65; 200]))?;
    assert_eq!(rt; writer.place(), 211);
    writer.put(&mut out, Record::Note(b"!"))?;
    let size = writer.finish(&out)?;
    assert_eq!(rt; size, 215);
    assert_eq!(rt; check_file(&out[0..215]), Ok(3));
    Ok(())
}

#[test]
fn bytes_of_a_row(rt: HostRuntime) -> Result<(), Fail> {
    let mut out = [9; 24];
    let mut writer = Writer::new(&mut out)?;
    writer.put(&mut out, header())?;
    let row = UnitRow {
        customer: 2,
        day: 1,
        hour: 24,
        subzone: 7,
        usage: 4,
        quantity: 16_909_060,
    };
    writer.put(&mut out, Record::Unit(row))?;
    let size = writer.finish(&out)?;
    assert_eq!(rt; size, 21);
    assert!(rt;
        out == [
            1, 0, 5, 0, 1, 2, 31, 32, 0, 11, 1, 0, 2, 1, 24, 7, 4, 1, 2, 3, 4, 9, 9, 9,
        ]
    );
    Ok(())
}

#[test]
fn longest_file(rt: HostRuntime) -> Result<(), Fail> {
    let mut out = [9; 65_600];
    let mut writer = Writer::new(&mut out)?;
    writer.put(&mut out, header())?;
    put_notes(&mut writer, &mut out, 322)?;
    assert_eq!(rt;
        writer.put(&mut out, Record::Note(&[65; 160])),
        Err(Refusal::NoUnitFile)
    );
    writer.put(&mut out, Record::Note(&[65; 159]))?;
    assert_eq!(rt;
        writer.put(&mut out, Record::Note(b"!")),
        Err(Refusal::NoUnitFile)
    );
    let size = writer.finish(&out)?;
    assert_eq!(rt; size, 65_536);
    assert_eq!(rt; check_file(&out[0..65_536]), Ok(324));
    assert_eq!(rt; check_file(&out[0..65_537]), Err(Refusal::NoUnitFile));
    Ok(())
}
