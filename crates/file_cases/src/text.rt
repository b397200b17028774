// Listings, and files that are made of text.
use std::test::Fail;
use tariff::Refusal;
use unit_text::{ComposeError, Fault, Reason, compose, list};

const FILE: [u8; 36] = [
    1, 0, 5, 0, 0, 3, 1, 1, 0, 11, 1, 0, 0, 1, 1, 1, 0, 0, 0, 2, 88, 0, 9, 2, 3, 1, 1, 1, 0, 0, 3,
    232, 0, 2, 3, 33,
];

#[test]
fn listed_and_composed(rt: HostRuntime) -> Result<(), Fail> {
    let listing = list(rt.alloc(), &FILE)?;
    assert_eq!(rt; listing.refusal, None);
    let text =
        b"book customers 3 days 1 subzones 1\nunits customer 0 day 1 hour 1 subzone 1 use 0 quantity 600\ncost line 3 subzone 1 day 1 hour 1 amount 1000\nnote !\n";
    assert!(rt; listing.text.as_slice() == text.as_slice());
    let Ok(file) = compose(rt.alloc(), listing.text.as_slice()) else {
        return Err(Fail::new("the listing is composed"));
    };
    assert!(rt; file.as_slice() == FILE.as_slice());
    Ok(())
}

#[test]
fn a_fault_ends_the_listing(rt: HostRuntime) -> Result<(), Fail> {
    let listing = list(rt.alloc(), &[1, 0, 5, 0, 0, 3, 1, 1, 0])?;
    assert_eq!(rt; listing.refusal, Some(Refusal::RecordLength { place: 8 }));
    let text =
        b"book customers 3 days 1 subzones 1\nrefusal 17: a record is cut short, has length 0, or has not the length of its kind (at byte 8)\n";
    assert!(rt; listing.text.as_slice() == text.as_slice());
    Ok(())
}

fn fault_of(rt: &HostRuntime, text: &[u8]) -> Result<Fault, Fail> {
    match compose(rt.alloc(), text) {
        Ok(_) => Err(Fail::new("the text has a fault")),
        Err(ComposeError::Fault(fault)) => Ok(fault),
        Err(ComposeError::OutOfMemory(error)) => Err(error.into()),
    }
}

#[test]
fn faults_of_a_text(rt: HostRuntime) -> Result<(), Fail> {
    let missing = Fault {
        line: 1,
        reason: Reason::Refused(Refusal::RecordKind { place: 1 }),
    };
    assert_eq!(rt; fault_of(&rt, b"")?, missing);
    assert_eq!(rt; fault_of(&rt, b"note hello\n")?, missing);
    let out_of_form = Fault {
        line: 2,
        reason: Reason::NotARecord,
    };
    assert_eq!(rt;
        fault_of(&rt, b"book customers 3 days 1 subzones 1\n\n")?,
        out_of_form
    );
    assert_eq!(rt;
        fault_of(&rt, b"book customers 3 days 1 subzones 1\ncost line 256\n")?,
        out_of_form
    );
    assert_eq!(rt;
        fault_of(&rt, b"book customers 3 days 1 subzones 1\nrow 1")?,
        out_of_form
    );
    let long = Fault {
        line: 2,
        reason: Reason::Refused(Refusal::RecordLength { place: 8 }),
    };
    assert_eq!(rt;
        fault_of(&rt, b"book customers 3 days 1 subzones 1\nnote \n")?,
        long
    );
    Ok(())
}
