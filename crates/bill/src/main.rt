// bill LINE RULE: the bill of a line over the unit file on standard input, as a table.
#![tactic(auto)]

ghost use Rattle.std.specs.Prelude.{◌≡◌};
ghost use Rattle.bill_report.specs.Failing.{UnlessOutOfMemory};
ghost use Rattle.bill_report.specs.Report.{report_of};
ghost use Rattle.bill_report.specs.Shown.{shown_report};

use bill_report::report::{RuleName, report_on};
use bill_report::{BillError, ErrorLine};
use std::alloc::Global;
use std::env;
use std::io::Read;
use std::process::ExitCode;

// The answer to the arguments and the bytes that were read.
pub fn answer_to(heap: Global, line: u8, rule: RuleName, input: &[u8]) -> Result<String, BillError>
    ensures { UnlessOutOfMemory result (λ a. shown_report a ≡ report_of line rule input.now) }
{
    report_on(heap, line, rule, input)
}

// The line and the rule of the arguments, if they are good.
fn asked(rt: &HostRuntime) -> anyhow::Result<Option<(u8, RuleName)>> {
    let mut words = env::args(rt)?;
    let _program = words.next();
    let (Some(line), Some(rule), None) = (words.next(), words.next(), words.next()) else {
        return Ok(None);
    };
    let line = line.as_str().parse::<u8>().ok();
    Ok(line.zip(RuleName::named(rule.as_str())))
}

// Prints the bill, or why there is none.
fn run(rt: &HostRuntime) -> anyhow::Result<ExitCode> {
    let Some((line, rule)) = asked(rt)? else {
        rt.eprintln("usage: bill LINE down|running < UNIT-FILE")?;
        return Ok(ExitCode::FAILURE);
    };
    let mut input = Vec::new(rt.alloc());
    rt.stdin().read_to_end(&mut input)?;
    match answer_to(rt.alloc(), line, rule, input.as_slice()) {
        Ok(table) => {
            rt.print(table)?;
            Ok(ExitCode::SUCCESS)
        }
        Err(BillError::OutOfMemory) => Err(BillError::OutOfMemory.into()),
        Err(refused) => {
            rt.eprint(ErrorLine(refused))?;
            Ok(ExitCode::FAILURE)
        }
    }
}

fn main(rt: HostRuntime) -> anyhow::Result<ExitCode> {
    run(&rt)
}
