// statement: the statement of the unit file on standard input.
#![tactic(auto)]

ghost use Rattle.std.specs.Prelude.{◌≡◌, IfOk};
ghost use Rattle.statement_report.specs.Statement.{statement_of};

use statement_report::{MOST_BYTES, make_statement};
use std::alloc::{AllocError, Global};
use std::io::{Read, Write};
use std::process::ExitCode;
use tariff::Refusal;

// What is printed: the text, and the refusal that it tells, where the file is refused.
#[derive(Drop)]
pub struct Printed {
    text: Vec<u8>,
    refusal: Option<Refusal>,
}

// What is printed for a unit file. The buffer always holds the text.
pub fn answer_to(heap: Global, file: &[u8]) -> Result<Printed, AllocError>
    ensures { IfOk result (λ p. (p.refusal, p.text.items) ≡ statement_of file.now) }
{
    let mut text = vec![in heap; 0u8; MOST_BYTES]?;
    let statement = make_statement(file, text.as_mut_slice()).unwrap();
    text.truncate(statement.length);
    Ok(Printed {
        text,
        refusal: statement.refusal,
    })
}

// Prints the statement, and answers the refusal that it tells, if any.
fn run(rt: &HostRuntime) -> anyhow::Result<Option<Refusal>> {
    let mut input = Vec::new(rt.alloc());
    rt.stdin().read_to_end(&mut input)?;
    let printed = answer_to(rt.alloc(), input.as_slice())?;
    rt.stdout().write_all(printed.text.as_slice())?;
    Ok(printed.refusal)
}

fn main(rt: HostRuntime) -> anyhow::Result<ExitCode> {
    match run(&rt)? {
        None => Ok(ExitCode::SUCCESS),
        Some(_) => Ok(ExitCode::FAILURE),
    }
}
