// What a line of a journal says, and why a line says nothing.
ghost use Rattle.std.specs.Prelude.{◌≡◌, Some};
ghost use Rattle.journal_line.specs.Faults.{usage, fault_words};
ghost use Rattle.journal_line.specs.Words.{Calls};

use sharing::RuleName;
use std::fmt;
use tariff::{CostRow, Sizes, UnitRow};

// What a book is opened with: its number, its sizes, and how many rows its tables have.
#[derive(Clone, Copy, PartialEq, Eq, Debug)]
pub struct Opening {
    pub number: u32,
    pub sizes: Sizes,
    pub unit_rows: usize,
    pub cost_rows: usize,
}

// A call of a book that is open or frozen; a pass goes by its number.
#[derive(Clone, Copy, PartialEq, Eq, Debug)]
pub enum Command {
    Admit {
        contributor: usize,
    },
    Remove {
        contributor: usize,
    },
    HandIn {
        pass: u32,
    },
    TakeIn {
        pass: u32,
    },
    Post {
        pass: u32,
        row: UnitRow,
    },
    Correct {
        pass: u32,
        row: usize,
        quantity: u32,
    },
    Cost {
        pass: u32,
        row: CostRow,
    },
    Freeze,
    Reopen,
    Bill {
        line: u8,
        rule: RuleName,
    },
}

// What a line says: one of three things, of which one is nothing to do.
#[derive(Clone, Copy, PartialEq, Eq, Debug)]
pub enum Line {
    // it is empty or a remark
    Skipped,
    Open(Opening),
    Call(Command),
}

// The calls by their first words.
#[derive(Clone, Copy, PartialEq, Eq, Debug)]
pub enum CallName {
    Open,
    Admit,
    Remove,
    HandIn,
    TakeIn,
    Post,
    Correct,
    Cost,
    Freeze,
    Reopen,
    Bill,
}

// Why a line says nothing.
#[derive(Clone, Copy, PartialEq, Eq, Debug)]
pub enum Fault {
    // its first word is not a call
    UnknownCall,
    // what follows is not what the call takes
    Fields(CallName),
}

impl CallName {
    // The call that a word names, if it names one. No FromStr, whose error would say nothing that None
    // does not.
    pub(crate) fn named(word: &[u8]) -> Option<CallName>
        ensures { Calls word.now result }
    {
        match word {
            b"open" => Some(CallName::Open),
            b"admit" => Some(CallName::Admit),
            b"remove" => Some(CallName::Remove),
            b"hand-in" => Some(CallName::HandIn),
            b"take-in" => Some(CallName::TakeIn),
            b"post" => Some(CallName::Post),
            b"correct" => Some(CallName::Correct),
            b"cost" => Some(CallName::Cost),
            b"freeze" => Some(CallName::Freeze),
            b"reopen" => Some(CallName::Reopen),
            b"bill" => Some(CallName::Bill),
            _ => None,
        }
    }

    // What the call takes, in words.
    fn usage(self) -> &'static str
        ensures { result.now ≡ usage self }
    {
        match self {
            CallName::Open =>
                "open takes NUMBER CUSTOMERS DAYS SUBZONES UNITROWS COSTROWS, numbers between single spaces",
            CallName::Admit => "admit takes CONTRIBUTOR, a number after a single space",
            CallName::Remove => "remove takes CONTRIBUTOR, a number after a single space",
            CallName::HandIn => "hand-in takes PASS, a number after a single space",
            CallName::TakeIn => "take-in takes PASS, a number after a single space",
            CallName::Post =>
                "post takes PASS CUSTOMER DAY HOUR SUBZONE USE QUANTITY, numbers between single spaces",
            CallName::Correct => "correct takes PASS ROW QUANTITY, numbers between single spaces",
            CallName::Cost =>
                "cost takes PASS LINE SUBZONE DAY HOUR AMOUNT, numbers between single spaces",
            CallName::Freeze => "freeze takes nothing",
            CallName::Reopen => "reopen takes nothing",
            CallName::Bill =>
                "bill takes LINE RULE, a number and then down or running, between single spaces",
        }
    }
}

// The fault as a user reads it.
impl fmt::Display for Fault {
    ghost output = { λ f. Some (fault_words f) };

    fn fmt<W: fmt::Write>(&self, f: &mut fmt::Formatter<W>) -> fmt::Result {
        match *self {
            Fault::UnknownCall => f.write_str("not a call of a journal"),
            Fault::Fields(call) => f.write_str(call.usage()),
        }
    }
}
