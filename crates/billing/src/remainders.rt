// What a bill leaves beside its columns.
ghost use Rattle.std.specs.Prelude.{◌≡◌, ◌^◌, ◌≤◌, length, pos, ◌-ℤ◌, sum};
ghost use Rattle.tariff.specs.Limits.{most_customers};
ghost use Rattle.billing.specs.Work.{Upto};

use bill_rules::Remainders;
use sharing::column_total;

// The sum of a column of cents.
pub(crate) fn cents(column: &[u64]) -> u64
    requires few { length column.now ≤ most_customers }
    requires small { Upto column.now (2 ^ 48) }
    ensures value { result ≡ sum column.now }
    ensures bound { result ≤ 2 ^ 56 }
{
    column_total(column) as u64
}

// The costs that were neither charged nor stranded, and the station charges that were not credited.
pub(crate) fn remainders(
    all: u128,
    stranded: u64,
    charged: u64,
    stations: u64,
    credited: u64,
) -> Remainders
    requires costs { (all ≤ 2 ^ 56) × (stranded ≤ 2 ^ 56) }
    requires columns { (charged ≤ 2 ^ 56) × (stations ≤ 2 ^ 56) × (credited ≤ 2 ^ 56) }
    ensures { result ≡ record { short = (pos all -ℤ pos stranded) -ℤ pos charged; over = pos stations -ℤ pos credited; stranded = pos stranded } }
{
    let stranded = stranded as i64;
    Remainders {
        short: all as i64 - stranded - charged as i64,
        over: stations as i64 - credited as i64,
        stranded,
    }
}
