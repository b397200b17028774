// The rules of the package by their names.
ghost use Rattle.std.specs.Prelude.{Some};
ghost use Rattle.sharing.specs.Names.{rule_word, meaning_of, Names};
ghost use Rattle.sharing.specs.NameLaws.{named_lawful};

use crate::{Down, Running, SharingRule};
use std::fmt;
use tariff::Refusal;

// A rule by its name, which shares as the rule does.
#[derive(Clone, Copy, PartialEq, Eq, Debug)]
pub enum RuleName {
    Down,
    Running,
}

impl RuleName {
    // The rule that a word names, if it names one. (No FromStr: nobody asks why a word names no rule.)
    pub fn named(word: &str) -> Option<RuleName>
        ensures { Names word.now result }
    {
        match word {
            "down" => Some(RuleName::Down),
            "running" => Some(RuleName::Running),
            _ => None,
        }
    }
}

impl fmt::Display for RuleName {
    ghost output = { λ n. Some (rule_word n) };

    fn fmt<W: fmt::Write>(&self, f: &mut fmt::Formatter<W>) -> fmt::Result {
        match self {
            RuleName::Down => f.write_str("down"),
            RuleName::Running => f.write_str("running"),
        }
    }
}

impl SharingRule for RuleName {
    ghost meaning = { meaning_of };

    ghost lawful = { named_lawful };

    fn share(&mut self, pool: u32, units: &[u32], column: &mut [u32]) -> Result<(), Refusal> {
        // a match: an enum of all rules needs no dyn
        match self {
            RuleName::Down => Down.share(pool, units, column),
            RuleName::Running => Running.share(pool, units, column),
        }
    }
}
