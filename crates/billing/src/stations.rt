// The station part of a line: in each area and on each day station units are charged by the day's
// costs, and what they pay is credited to the customers by the day's counted units.
ghost use Rattle.std.specs.Prelude.{◌≡◌, ◌^◌, ◌≤◌, [], ◌∷◌, length, Some, sum_by, OnOk, slice_index_or};
ghost use Rattle.std.specs.List.{range_with_len};
ghost use Rattle.tariff.specs.Limits.{most_amount};
ghost use Rattle.tariff.specs.Refusals.{first_of, answer};
ghost use Rattle.lines.specs.Cells.{station_days};
ghost use Rattle.bill_rules.specs.Bill.{station_charge};
ghost use Rattle.billing.specs.Work.{Adds, Upto, Proper};
ghost use Rattle.billing.specs.Parts.{CreditedOn, too_large_on};

use crate::basis::Basis;
use crate::charges::share_out;
use crate::columns::{add_column, fill_both};
use lines::{Cell, Kinds};
use sharing::{SharingRule, column_total};
use tariff::Refusal;
use tariff::limits::MOST_AMOUNT;

// What station units are charged of a day's pool, without the fraction.
fn station_charge(pool: u32, station: u32, all: u64) -> u64
    requires { (pool ≤ most_amount) × (station ≤ most_amount) }
    ensures value { result ≡ station_charge pool station all }
    ensures small { result ≤ 2 ^ 62 }
{
    (u64::from(pool) * u64::from(station))
        .checked_div(all)
        .unwrap_or(0)
}

// Adds each customer's station charge to the column, and answers what they come to.
fn charge_stations(pool: u32, all: u64, station_units: &[u32], stations: &mut [u64]) -> u128
    requires places { length stations.old ≡ length station_units.now }
    requires room { Upto stations.old (2 ^ 62) }
    requires small { (pool ≤ most_amount) × Upto station_units.now most_amount }
    ensures recovered { result ≡ sum_by (λ k. station_charge pool (slice_index_or station_units.now k 0) all) (range_with_len 0 (length station_units.now)) }
    ensures charged { Adds stations.old stations.new (λ k. station_charge pool (slice_index_or station_units.now k 0) all) }
{
    let mut recovered: u128 = 0;
    // by the index: of what `stations.iter_mut().zip(station_units)` writes a proof knows the length alone
    for (i, units) in station_units.iter().enumerate() {
        let charge = station_charge(pool, *units, all);
        stations[i] += charge;
        recovered += u128::from(charge);
    }
    recovered
}

impl Basis<'_, '_> {
    // The station part of one area and day; where the day has no costs there is nothing to charge.
    fn station_day<R: SharingRule>(
        self,
        rule: &mut R,
        station: u8,
        cell: Cell,
        stations: &mut [u64],
        credits: &mut [u64],
    ) -> Result<(), Refusal>
        requires has { self.line.station ≡ Some station }
        requires proper { Proper self.line cell.area cell.day }
        requires places { (length stations.old ≡ self.sizes.customers) × (length credits.old ≡ self.sizes.customers) }
        requires room { Upto stations.old (2 ^ 62) × Upto credits.old (2 ^ 62) }
        ensures answers { result ≡ answer (first_of (too_large_on (R.meaning rule.old) self.entry (cell ∷ []))) tt }
        ensures credited { OnOk result (CreditedOn (R.meaning rule.old) self.entry (cell ∷ []) (2 ^ 31) stations.old stations.new credits.old credits.new) }
        ensures means { R.meaning rule.new ≡ R.meaning rule.old }
    {
        let pool = self.pool(cell);
        if pool == 0 {
            return Ok(());
        }
        let customers = usize::from(self.sizes.customers);
        // no heap: room for the most customers, of which the book's are used
        let mut counted = [0; 256];
        let counted = &mut counted[..customers];
        let mut work = [0; 256];
        let work = &mut work[..customers];
        fill_both(
            self.units,
            cell,
            self.line.counted,
            counted,
            Kinds::Only(station),
            work,
        );
        let recovered = charge_stations(pool, column_total(counted) as u64, work, stations);
        if recovered > u128::from(MOST_AMOUNT) {
            return Err(Refusal::StationChargesTooLarge {
                subzone: cell.area,
                day: cell.day,
            });
        }
        share_out(rule, recovered as u32, counted, work);
        add_column(credits, work);
        Ok(())
    }

    // The station part of a line, if it has one: adds the station charges and the credits to the
    // columns, unless those of one area and day come to too much.
    pub(crate) fn station_part<R: SharingRule>(
        self,
        rule: &mut R,
        stations: &mut [u64],
        credits: &mut [u64],
    ) -> Result<(), Refusal>
        requires places { (length stations.old ≡ self.sizes.customers) × (length credits.old ≡ self.sizes.customers) }
        requires room { Upto stations.old 0 × Upto credits.old 0 }
        ensures answers { result ≡ answer (first_of (too_large_on (R.meaning rule.old) self.entry (station_days self.entry.line self.entry.sizes))) tt }
        ensures credited { OnOk result (CreditedOn (R.meaning rule.old) self.entry (station_days self.entry.line self.entry.sizes) (2 ^ 41) stations.old stations.new credits.old credits.new) }
        ensures means { R.meaning rule.new ≡ R.meaning rule.old }
    {
        let Some(station) = self.line.station else {
            return Ok(());
        };
        for area in self.areas() {
            for day in self.days() {
                let cell = Cell { area, day, hour: 0 };
                self.station_day(rule, station, cell, stations, credits)?;
            }
        }
        Ok(())
    }
}
