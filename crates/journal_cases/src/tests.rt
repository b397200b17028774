// A journal with every call, read as text.
use journal_book::Journal;
use journal_line::{Command, Opening};
use sharing::{Down, RuleName, Running};
use std::alloc::Global;
use std::test::Fail;
use tariff::{CostRow, Sizes, UnitRow};

const OPENING: Opening = Opening {
    number: 7,
    sizes: Sizes {
        customers: 3,
        days: 1,
        subzones: 1,
    },
    unit_rows: 2,
    cost_rows: 1,
};

const COST: CostRow = CostRow {
    line: 3,
    subzone: 1,
    day: 1,
    hour: 1,
    amount: 1000,
};

fn units(customer: u16, quantity: u32) -> UnitRow {
    UnitRow {
        customer,
        day: 1,
        hour: 1,
        subzone: 1,
        usage: 0,
        quantity,
    }
}

fn replayed(heap: Global, commands: &[Command]) -> Result<Vec<u8>, Fail> {
    let journal = Journal::open(heap, OPENING)?;
    let mut text = Vec::new(heap);
    let (journal, done) = journal.replay(&mut Down, &mut Running, commands, &mut text);
    journal.close();
    done?;
    Ok(text)
}

#[test]
fn answers_while_open(rt: HostRuntime) -> Result<(), Fail> {
    let commands = [
        Command::Admit { contributor: 64 },
        Command::Admit { contributor: 3 },
        Command::Post {
            pass: 1,
            row: units(0, 100),
        },
        Command::Post {
            pass: 1,
            row: units(1, 200),
        },
        Command::Post {
            pass: 1,
            row: units(1, 200),
        },
        Command::Post {
            pass: 2,
            row: units(1, 200),
        },
        Command::Correct {
            pass: 1,
            row: 1,
            quantity: 300,
        },
        Command::Cost { pass: 1, row: COST },
        Command::Freeze,
        Command::Reopen,
        Command::HandIn { pass: 1 },
        Command::HandIn { pass: 1 },
    ];
    let text = replayed(rt.alloc(), &commands)?;
    assert!(rt;
        text.as_slice()
            == b"refused 3\npass 1\nrow 0\nrow 1\nrefused 10\nno pass 2\ncorrected\nrow 0\nrefused 12\nnot offered\nhanded in\nno pass 1\n".as_slice()
    );
    Ok(())
}

#[test]
fn answers_while_frozen(rt: HostRuntime) -> Result<(), Fail> {
    let commands = [
        Command::Admit { contributor: 3 },
        Command::Post {
            pass: 1,
            row: units(0, 100),
        },
        Command::Post {
            pass: 1,
            row: units(1, 300),
        },
        Command::Cost { pass: 1, row: COST },
        Command::Remove { contributor: 3 },
        Command::Freeze,
        Command::HandIn { pass: 1 },
        Command::TakeIn { pass: 1 },
        Command::TakeIn { pass: 1 },
        Command::Bill {
            line: 99,
            rule: RuleName::Down,
        },
        Command::Bill {
            line: 3,
            rule: RuleName::Running,
        },
        Command::Reopen,
        Command::Admit { contributor: 3 },
    ];
    let text = replayed(rt.alloc(), &commands)?;
    assert!(rt;
        text.as_slice()
            == b"pass 1\nrow 0\nrow 1\nrow 0\nremoved\nfrozen\nnot offered\nrefused 7\nno pass 1\nrefused 8\n3 0 250 0 0\n3 1 750 0 0\n3 sum 1000 0 0 0 0 0\nopen\npass 2\n".as_slice()
    );
    Ok(())
}
