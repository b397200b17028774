// Sharing rules: a pool of cents is shared among customers by their units.
#![tactic(auto)]

mod columns;
mod names;

ghost use Rattle.std.specs.Prelude.{◌≡◌, ◌*◌, ◌/◌, ◌≤◌, length, sum};
ghost use Rattle.tariff.specs.Limits.{most_amount};
ghost use Rattle.tariff.specs.Refusals.{answer, unless};
ghost use Rattle.sharing.specs.Rule.{Meaning, Lawful, share_refusal, division};
ghost use Rattle.sharing.specs.Rules.{down, running};
ghost use Rattle.sharing.specs.Theorems.{LawsOfSharing};
ghost use Rattle.sharing.specs.Laws.{down_lawful, running_lawful};

pub use columns::{Figure, column_total};
pub use names::RuleName;
use tariff::Refusal;
use tariff::limits::{MOST_AMOUNT, MOST_CUSTOMERS};

// A rule by which a pool is shared. Its meaning gives a share for each customer's units and keeps
// the laws of specs/Rule.antt; a rule may have a state, but no call changes what it means. (Each
// function that lends a rule on says so again: no type tells that a lent rule keeps its meaning.)
pub trait SharingRule {
    ghost meaning: { Self → Meaning };

    // Writes each customer's share into the column, or refuses and leaves the column alone.
    fn share(&mut self, pool: u32, units: &[u32], column: &mut [u32]) -> Result<(), Refusal>
        ensures answers { result ≡ answer (share_refusal pool units.now (length column.old)) tt }
        ensures writes { column.new ≡ unless (share_refusal pool units.now (length column.old)) column.old (meaning self.old pool units.now) }
        ensures means { meaning self.new ≡ meaning self.old };

    ghost lawful: { (s : Self) → Lawful (meaning s) };
}

// Each customer's part of the pool without its fraction.
#[derive(Clone, Copy)]
pub struct Down;

// The part of all customers up to this one, less that of those before it.
#[derive(Clone, Copy)]
pub struct Running;

// What a division of a pool comes to: all units, all shares, and the pool less the shares.
#[derive(Clone, Copy, PartialEq, Eq, Debug)]
pub struct Division {
    pub units: u64,
    pub shares: u64,
    pub left: i64,
}

// The units of all customers, or the refusal that a rule gives.
fn units_total(pool: u32, units: &[u32], places: usize) -> Result<u64, Refusal>
    ensures { result ≡ answer (share_refusal pool units.now places) (sum units.now) }
{
    if places != units.len() || units.len() > usize::from(MOST_CUSTOMERS) || pool > MOST_AMOUNT {
        return Err(Refusal::RuleInput);
    }
    let total = column_total(units);
    if total > u128::from(MOST_AMOUNT) {
        return Err(Refusal::RuleInput);
    }
    Ok(total as u64)
}

// The part of the pool that falls to some of all the units, without its fraction.
fn part(pool: u32, some: u64, total: u64) -> u32
    requires { (pool ≤ most_amount) × ((some ≤ total) × (total ≤ most_amount)) }
    ensures { result ≡ pool * some / total }
{
    (u64::from(pool) * some).checked_div(total).unwrap_or(0) as u32
}

impl SharingRule for Down {
    ghost meaning = { λ _. down };

    ghost lawful = { λ s. down_lawful };

    fn share(&mut self, pool: u32, units: &[u32], column: &mut [u32]) -> Result<(), Refusal> {
        let total = units_total(pool, units, column.len())?;
        // each place holds the customer's units until its share is known
        column.copy_from_slice(units);
        for share in column.iter_mut() {
            *share = part(pool, u64::from(*share), total);
        }
        Ok(())
    }
}

impl SharingRule for Running {
    ghost meaning = { λ _. running };

    ghost lawful = { λ s. running_lawful };

    fn share(&mut self, pool: u32, units: &[u32], column: &mut [u32]) -> Result<(), Refusal> {
        let total = units_total(pool, units, column.len())?;
        column.copy_from_slice(units);
        let mut seen = 0;
        let mut given = 0;
        for share in column.iter_mut() {
            seen += u64::from(*share);
            let reached = part(pool, seen, total);
            *share = reached - given;
            given = reached;
        }
        Ok(())
    }
}

// Shares a pool by a rule and adds the division up. The laws of sharing hold of every rule.
#[tactic(auto, using(crate::proofs::Theorems::laws_of_sharing))]
pub fn divide<R: SharingRule>(
    rule: &mut R,
    pool: u32,
    units: &[u32],
    column: &mut [u32],
) -> Result<Division, Refusal>
    ensures answers { result ≡ answer (share_refusal pool units.now (length column.old)) (division (R.meaning rule.old) pool units.now) }
    ensures writes { column.new ≡ unless (share_refusal pool units.now (length column.old)) column.old (R.meaning rule.old pool units.now) }
    ensures means { R.meaning rule.new ≡ R.meaning rule.old }
    ensures lawful { Lawful (R.meaning rule.old) }
    ensures laws { LawsOfSharing }
{
    rule.share(pool, units, column)?;
    let shares = column_total(column) as u64;
    let units = column_total(units) as u64;
    Ok(Division {
        units,
        shares,
        left: i64::from(pool) - shares as i64,
    })
}
