// Divides a pool of cents among customers by their units, by both rules: reads the pool and the
// units from standard input, and prints a table, or one line that says why there is none.
#![tactic(auto)]

ghost use Rattle.share_report.specs.Report.{report_of};
ghost use Rattle.share_report.specs.Owned.{OwnedAnswers};
ghost use Rattle.share.specs.Answer.{LeftShown};

use share_report::report::report_owned;
use share_report::{ErrorLine, OwnedShareError};
use std::alloc::Global;
use std::io::Read;
use std::process::ExitCode;

// The answer to what was read.
pub fn answer_to(heap: Global, input: &[u8]) -> Result<String, OwnedShareError>
    ensures answers { OwnedAnswers result (report_of input.now) }
    ensures left { LeftShown }
{
    report_owned(heap, input)
}

fn main(rt: HostRuntime) -> anyhow::Result<ExitCode> {
    let mut input = Vec::new(rt.alloc());
    rt.stdin().read_to_end(&mut input)?;
    match answer_to(rt.alloc(), input.as_slice()) {
        Ok(table) => {
            rt.print(table)?;
            Ok(ExitCode::SUCCESS)
        }
        Err(error @ OwnedShareError::OutOfMemory) => Err(error.into()),
        Err(error) => {
            rt.eprint(ErrorLine(error))?;
            Ok(ExitCode::FAILURE)
        }
    }
}
