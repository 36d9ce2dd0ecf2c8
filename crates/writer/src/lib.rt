// The writer: the lists are tested whole, and only then is the lent buffer written.
#![tactic(auto)]

ghost use Rattle.std.specs.Prelude.{◌≡◌, ◌+◌, ◌≤◌, length};
ghost use Rattle.refusals.specs.Refusals.{fault_of, outcome, unless, filled};
ghost use Rattle.dutyfile.specs.declared.Edition.TheVariants.{Spp1, Spp2};
ghost use Rattle.dutyfile.specs.File.{bodies_at, lists, render, sum, bodies};
ghost use Rattle.dutyfile.specs.Faults.{columns_fault, bodies_fault, numbers_fault, lists_fault, writing};
ghost use Rattle.render.specs.Lists.{lists_of};

use dutyfile::Edition;
use refusals::Refusal;
use render::Lists;

// Tests 4, 5 and 6, column by column: how many row numbers the bodies have, or the first refusal.
fn check_columns(
    edition: Edition,
    rows: usize,
    costs: &[i32],
    lengths: &[u16],
) -> Result<usize, Refusal>
    requires { length lengths.now ≡ length costs.now }
    ensures { outcome result ≡ unless (columns_fault edition rows 0 costs.now lengths.now) (sum lengths.now) }
{
    let mut total = 0;
    for (&cost, &size) in costs.iter().zip(lengths) {
        dutyfile::check_column(edition, rows, total, cost, size)?;
        total += usize::from(size);
    }
    Ok(total)
}

// Test 9: each body is the next part of the row numbers.
fn check_bodies(rows: usize, lengths: &[u16], numbers: &[u8]) -> Result<(), Refusal>
    requires { length numbers.now ≡ sum lengths.now }
    ensures { fault_of result ≡ bodies_fault rows (bodies lengths.now numbers.now) }
{
    let mut start = 0;
    for &size in lengths {
        let end = start + usize::from(size);
        if !dutyfile::rises(&numbers[start..end], rows) {
            return Err(Refusal::Row);
        }
        start = end;
    }
    Ok(())
}

// Test 13 for the row numbers against t, then 9: the file's length, or the first refusal.
fn check_numbers(
    rows: usize,
    columns: usize,
    total: usize,
    lengths: &[u16],
    numbers: &[u8],
) -> Result<usize, Refusal>
    requires columns_bound { (columns ≤ 256) × (total ≤ 4096) }
    requires total_value { total ≡ sum lengths.now }
    ensures { outcome result ≡ unless (numbers_fault rows lengths.now numbers.now) (bodies_at columns + total) }
{
    if numbers.len() != total {
        return Err(Refusal::Lists);
    }
    check_bodies(rows, lengths, numbers)?;
    Ok(8 + 8 * columns + total)
}

// All tests of the lists, 2, 13, 4 to 6, 13 and 9: the file's length, or the first refusal.
fn check_lists(given: &Lists<'_>) -> Result<usize, Refusal>
    ensures { outcome result ≡ unless (lists_fault (lists_of given.now)) (length (render (lists_of given.now))) }
{
    let rows = usize::from(given.rows);
    let columns = given.costs.len();
    dutyfile::check_counts(rows, columns)?;
    if given.lengths.len() != columns {
        return Err(Refusal::Lists);
    }
    let total = check_columns(given.edition, rows, given.costs, given.lengths)?;
    check_numbers(rows, columns, total, given.lengths, given.numbers)
}

// Writes a duty file of an edition: its length, with the file at the front of the buffer; or a refusal, with the buffer as it was.
fn write_edition(given: &Lists<'_>, out: &mut [u8]) -> Result<usize, Refusal>
    ensures result_value { outcome result ≡ writing (lists_of given.now) (length out.old) }
    ensures out_after { out.new ≡ filled (outcome result) (render (lists_of given.now)) out.old }
{
    let size = check_lists(given)?;
    if out.len() < size {
        return Err(Refusal::Room);
    }
    render::put_file(given, out);
    Ok(size)
}

// Writes a duty file that begins with SPP1.
pub fn write(
    rows: u16,
    costs: &[i32],
    lengths: &[u16],
    numbers: &[u8],
    out: &mut [u8],
) -> Result<usize, Refusal>
    ensures result_value { outcome result ≡ writing (lists Spp1 rows costs.now lengths.now numbers.now) (length out.old) }
    ensures out_after { out.new ≡ filled (outcome result) (render (lists Spp1 rows costs.now lengths.now numbers.now)) out.old }
{
    let given = Lists {
        edition: Edition::Spp1,
        rows,
        costs,
        lengths,
        numbers,
    };
    write_edition(&given, out)
}

// Writes a duty file that begins with SPP2 (02, P10).
pub fn write2(
    rows: u16,
    costs: &[i32],
    lengths: &[u16],
    numbers: &[u8],
    out: &mut [u8],
) -> Result<usize, Refusal>
    ensures result_value { outcome result ≡ writing (lists Spp2 rows costs.now lengths.now numbers.now) (length out.old) }
    ensures out_after { out.new ≡ filled (outcome result) (render (lists Spp2 rows costs.now lengths.now numbers.now)) out.old }
{
    let given = Lists {
        edition: Edition::Spp2,
        rows,
        costs,
        lengths,
        numbers,
    };
    write_edition(&given, out)
}
