// What the calls of the story answered.
ghost use Rattle.std.specs.Prelude.{◌≡◌};
ghost use Rattle.cached_pass.specs.Said.{said_refused, said_row, said_done, said_bill};

use bill_rules::Remainders;
use std::fmt;
use tariff::Refusal;

// All that an accepted bill of three customers gives.
#[derive(Clone, Copy)]
pub struct Billed {
    pub charges: [u64; 3],
    pub stations: [u64; 3],
    pub credits: [u64; 3],
    pub left: Remainders,
}

// What a call answered: done, the number of a pass or of a row, the figures of a bill, or the number
// of a refusal. The number and no `Refusal`: printing has no contract, so what is proved has to reach
// the number itself.
#[derive(Clone, Copy)]
pub enum Said {
    Done,
    Pass(u32),
    Row(usize),
    Bill(Billed),
    Refused(u8),
}

impl From<Refusal> for Said {
    ghost from_gives = { λ refusal said. said ≡ said_refused refusal };

    fn from(refusal: Refusal) -> Self {
        Self::Refused(refusal.number())
    }
}

impl From<Result<(), Refusal>> for Said {
    ghost from_gives = { λ answer said. said ≡ said_done answer };

    fn from(answer: Result<(), Refusal>) -> Self {
        match answer {
            Ok(()) => Self::Done,
            Err(refusal) => Self::from(refusal),
        }
    }
}

impl From<Result<usize, Refusal>> for Said {
    ghost from_gives = { λ answer said. said ≡ said_row answer };

    fn from(answer: Result<usize, Refusal>) -> Self {
        match answer {
            Ok(row) => Self::Row(row),
            Err(refusal) => Self::from(refusal),
        }
    }
}

impl Said {
    // A bill is no `From`, since its figures stand in the columns beside the answer.
    pub fn bill(
        answer: Result<Remainders, Refusal>,
        charges: [u64; 3],
        stations: [u64; 3],
        credits: [u64; 3],
    ) -> Said
        ensures { result ≡ said_bill answer charges stations credits }
    {
        match answer {
            Ok(left) => Said::Bill(Billed {
                charges,
                stations,
                credits,
                left,
            }),
            Err(refusal) => Said::from(refusal),
        }
    }
}

impl fmt::Display for Billed {
    fn fmt<W: fmt::Write>(&self, f: &mut fmt::Formatter<W>) -> fmt::Result {
        let [a, b, c] = self.charges;
        write!(f, "charges {a} {b} {c}")?;
        let [a, b, c] = self.stations;
        write!(f, ", station charges {a} {b} {c}")?;
        let [a, b, c] = self.credits;
        write!(f, ", credits {a} {b} {c}")?;
        let Remainders {
            short,
            over,
            stranded,
        } = self.left;
        write!(f, ", short {short}, over {over}, stranded {stranded}")
    }
}

impl fmt::Display for Said {
    fn fmt<W: fmt::Write>(&self, f: &mut fmt::Formatter<W>) -> fmt::Result {
        match *self {
            Said::Done => f.write_str("done"),
            Said::Pass(number) => write!(f, "pass {number}"),
            Said::Row(number) => write!(f, "row {number}"),
            Said::Bill(billed) => write!(f, "{billed}"),
            Said::Refused(number) => write!(f, "refused {number}"),
        }
    }
}
