// compose: the text form of a unit file on standard input becomes the file on standard output.
#![tactic(auto)]

ghost use Rattle.unit_file.specs.Laws.{ReadBack};
ghost use Rattle.unit_text.specs.Composing.{composed, Files, Restored};

use std::alloc::Global;
use std::io::{Read, Write};
use std::process::ExitCode;
use unit_text::{ComposeError, compose};

// What is printed for a text: the file, or nothing and its first fault.
pub fn printed(heap: Global, text: &[u8]) -> Result<Vec<u8>, ComposeError>
    ensures file { Files result (composed text.now) }
    ensures restored { Restored text.now result }
    ensures read_back { ReadBack }
{
    compose(heap, text)
}

fn main(rt: HostRuntime) -> anyhow::Result<ExitCode> {
    let mut input = Vec::new(rt.alloc());
    rt.stdin().read_to_end(&mut input)?;
    match printed(rt.alloc(), input.as_slice()) {
        Ok(file) => {
            rt.stdout().write_all(file.as_slice())?;
            Ok(ExitCode::SUCCESS)
        }
        Err(ComposeError::Fault(fault)) => {
            eprintln!(rt; "compose: {fault}")?;
            Ok(ExitCode::FAILURE)
        }
        Err(ComposeError::OutOfMemory(error)) => Err(error.into()),
    }
}
