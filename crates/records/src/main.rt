// records: a unit file on standard input is listed as text, one record a line.
#![tactic(auto)]

ghost use Rattle.std.specs.Prelude.{◌≡◌, IfOk};
ghost use Rattle.unit_file.specs.Laws.{Rewritten};
ghost use Rattle.unit_file.specs.Reading.{contents_of};
ghost use Rattle.unit_text.specs.Composing.{Inverse};
ghost use Rattle.unit_text.specs.Lines.{listing};

use std::alloc::{AllocError, Global};
use std::io::{Read, Write};
use std::process::ExitCode;
use tariff::Refusal;
use unit_text::{Listing, list};

// What is printed for the bytes of an input, and whether it ends in a refusal.
pub fn printed(heap: Global, input: &[u8]) -> Result<Listing, AllocError>
    ensures text { IfOk result (λ l. l.text.items ≡ listing input.now) }
    ensures refusal { IfOk result (λ l. l.refusal ≡ (contents_of input.now).refusal) }
    ensures rewritten { Rewritten input.now }
    ensures inverse { Inverse input.now }
{
    list(heap, input)
}

fn run(rt: &HostRuntime) -> anyhow::Result<Option<Refusal>> {
    let mut input = Vec::new(rt.alloc());
    rt.stdin().read_to_end(&mut input)?;
    let listing = printed(rt.alloc(), input.as_slice())?;
    rt.stdout().write_all(listing.text.as_slice())?;
    Ok(listing.refusal)
}

fn main(rt: HostRuntime) -> anyhow::Result<ExitCode> {
    let Some(refusal) = run(&rt)? else {
        return Ok(ExitCode::SUCCESS);
    };
    eprintln!(rt; "records: {refusal}")?;
    Ok(ExitCode::FAILURE)
}
