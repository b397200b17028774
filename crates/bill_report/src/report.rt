// The answer to a line, a rule and a unit file: the line's bill as a table, or why there is none.
ghost use Rattle.std.specs.Prelude.{◌≡◌, ◌^◌, ◌≤◌, ◌++◌, length, ℤ, IfOk, string_bytes, sum, OnOk};
ghost use Rattle.std.specs.List.{range_with_len, flat_map};
ghost use Rattle.lines.specs.Totals.{line_costs};
ghost use Rattle.sharing.specs.Names.{meaning_of};
ghost use Rattle.book_rules.specs.Machine.{book_bill};
ghost use Rattle.book.specs.Shown.{frozen_book};
ghost use Rattle.bill_report.specs.Failing.{UnlessOutOfMemory};
ghost use Rattle.bill_report.specs.Shown.{shown_figures, shown_figured, shown_report};
ghost use Rattle.bill_report.specs.Report.{charge_word, net_of, row_of, sum_text, balance_text, table_of, evenly, by_bill, report_of};

use crate::error::BillError;
use crate::figured::Figured;
use crate::settled::{Settled, settle};
use bill_rules::Remainders;
use lines::cell::WHOLE;
use lines::{Kinds, total};
use settling::file_sizes;
pub use sharing::RuleName;
use sharing::column_total;
use std::alloc::{AllocError, Global};

// The head of the charge column; line 7 pays funds out.
fn charge_head(line: u8) -> &'static str
    ensures { result.now ≡ charge_word line }
{
    if line == 7 { "receives" } else { "charge" }
}

fn net(charge: u128, station: u128, credit: u128) -> i128
    requires { (charge ≤ 2 ^ 125) × (station ≤ 2 ^ 125) × (credit ≤ 2 ^ 125) }
    ensures { result ≡ net_of charge station credit }
{
    charge as i128 + station as i128 - credit as i128
}

// Adds a row for each customer.
fn write_rows(text: &mut String, figured: &Figured) -> Result<(), AllocError>
    ensures { OnOk result (string_bytes text.new ≡ string_bytes text.old ++ flat_map (row_of figured.now.charges.items figured.now.stations.items figured.now.credits.items) (range_with_len 0 (length figured.now.charges.items))) }
{
    let rows = figured
        .charges
        .iter()
        .zip(&figured.stations)
        .zip(&figured.credits);
    for (customer, ((charge, station), credit)) in rows.enumerate() {
        let net = net(
            u128::from(*charge),
            u128::from(*station),
            u128::from(*credit),
        );
        writeln!(text, "{customer} {charge} {station} {credit} {net}")?;
    }
    Ok(())
}

// Adds the totals.
fn write_sums(text: &mut String, figured: &Figured) -> Result<(), AllocError>
    ensures { OnOk result (string_bytes text.new ≡ string_bytes text.old ++ sum_text (sum figured.now.charges.items) (sum figured.now.stations.items) (sum figured.now.credits.items)) }
{
    let charge = column_total(&figured.charges);
    let station = column_total(&figured.stations);
    let credit = column_total(&figured.credits);
    let net = net(charge, station, credit);
    writeln!(text, "sum {charge} {station} {credit} {net}")
}

// Adds what balances the totals with the costs.
fn write_balance(text: &mut String, left: Remainders, all: u128) -> Result<(), AllocError>
    ensures { OnOk result (string_bytes text.new ≡ string_bytes text.old ++ balance_text left.short left.over left.stranded all) }
{
    let Remainders {
        short,
        over,
        stranded,
    } = left;
    writeln!(
        text,
        "net sum + short {short} - over {over} + stranded {stranded} = costs {all}"
    )
}

// The table of a bill.
fn table(
    heap: Global,
    line: u8,
    rule: RuleName,
    all: u128,
    figured: &Figured,
) -> Result<String, AllocError>
    ensures { IfOk result (λ s. string_bytes s ≡ table_of line rule all (shown_figures figured.now)) }
{
    let head = charge_head(line);
    let mut text = format!(in heap;
        "line {line} by {rule}, in cents\ncustomer {head} station credit net\n"
    )?;
    write_rows(&mut text, figured)?;
    write_sums(&mut text, figured)?;
    write_balance(&mut text, figured.remainders, all)?;
    Ok(text)
}

// The figures of a bill by a rule.
fn figures_for(
    heap: Global,
    rule: RuleName,
    line: u8,
    settled: &Settled,
) -> Result<Figured, BillError>
    ensures { UnlessOutOfMemory result (λ got. shown_figured got ≡ book_bill (meaning_of rule) line (frozen_book settled.now.book) settled.now.units.items settled.now.costs.items (evenly settled.now.sizes.customers)) }
{
    let customers = usize::from(settled.sizes.customers);
    let mut charges = vec![in heap; 0u64; customers]?;
    let mut stations = vec![in heap; 0u64; customers]?;
    let mut credits = vec![in heap; 0u64; customers]?;
    let mut rule = rule;
    let remainders = settled.book.bill(
        &mut rule,
        &settled.units,
        &settled.costs,
        line,
        &mut charges,
        &mut stations,
        &mut credits,
    )?;
    Ok(Figured {
        charges,
        stations,
        credits,
        remainders,
    })
}

// The table of a settled book's bill.
fn told(heap: Global, line: u8, rule: RuleName, settled: &Settled) -> Result<String, BillError>
    ensures { UnlessOutOfMemory result (λ a. shown_report a ≡ by_bill line rule (line_costs line settled.now.costs.items) (book_bill (meaning_of rule) line (frozen_book settled.now.book) settled.now.units.items settled.now.costs.items (evenly settled.now.sizes.customers))) }
{
    let figured = figures_for(heap, rule, line, settled)?;
    let all = total(&settled.costs, Kinds::Only(line), WHOLE);
    Ok(table(heap, line, rule, all, &figured)?)
}

// What the program answers to a line, a rule and the bytes of a unit file: the table of the bill.
pub fn report_on(heap: Global, line: u8, rule: RuleName, input: &[u8]) -> Result<String, BillError>
    ensures { UnlessOutOfMemory result (λ a. shown_report a ≡ report_of line rule input.now) }
{
    let sizes = file_sizes(input)?;
    let settled = settle(heap, sizes, input)?;
    told(heap, line, rule, &settled)
}
