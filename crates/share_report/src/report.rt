// The answer to a text: a table of shares by both rules, or why there is none.
ghost use Rattle.std.specs.Prelude.{length};
ghost use Rattle.sharing.specs.Rule.{share_refusal};
ghost use Rattle.share_report.specs.Report.{divided_by, report_of};
ghost use Rattle.share_report.specs.Shown.{Answers};
ghost use Rattle.share_report.specs.Owned.{OwnedAnswers};

use crate::error::ShareError;
use crate::numbers::read_numbers;
use crate::owned::OwnedShareError;
use crate::table::{Shares, Table};
use sharing::{Down, Running};
use std::alloc::Global;

// The table of a pool and the units of each customer.
fn divided<'e>(heap: Global, pool: u32, units: &[u32]) -> Result<String, ShareError<'e>>
    ensures { Answers result (divided_by (share_refusal pool units.now (length units.now)) pool units.now) }
{
    let down = Shares::by(&mut Down, heap, pool, units)?;
    let running = Shares::by(&mut Running, heap, pool, units)?;
    let table = Table {
        pool,
        units,
        down,
        running,
    };
    Ok(format!(in heap; "{table}")?)
}

// The table of a text: a pool of cents and then the units of each customer.
pub fn report_on<'a>(heap: Global, text: &'a [u8]) -> Result<String, ShareError<'a>>
    ensures { Answers result (report_of text.now) }
{
    let numbers = read_numbers(heap, text)?;
    let (pool, units) = numbers
        .as_slice()
        .split_first()
        .ok_or(ShareError::NothingToShare)?;
    divided(heap, *pool, units)
}

// The same, whose answer borrows nothing, so that the text may go: of a bad word it has the start.
pub fn report_owned(heap: Global, text: &[u8]) -> Result<String, OwnedShareError>
    ensures { OwnedAnswers result (report_of text.now) }
{
    Ok(report_on(heap, text)?)
}
