// The tests of a file, 1 to 9, in 01's sequence.
#![tactic(auto)]

ghost use Rattle.std.specs.Prelude.{◌≡◌, ◌||◌, ◌+◌, ◌*◌, take};
ghost use Rattle.endian.specs.Bytes.{same};
ghost use Rattle.refusals.specs.Refusals.{fine, fault_of, outcome, unless};
ghost use Rattle.dutyfile.specs.declared.Edition.TheVariants.{Spp1, Spp2};
ghost use Rattle.dutyfile.specs.File.{magic, parse, shape, sum};
ghost use Rattle.dutyfile.specs.Faults.{header_fault, contents_fault, end_fault, rows_fault, file_fault};

use dutyfile::{Edition, Shape};
use refusals::Refusal;

// Whether a file begins with SPP1 or SPP2.
fn is_marked(file: &[u8]) -> bool
    ensures { result ≡ (same (take 4 file.now) (magic Spp1) || same (take 4 file.now) (magic Spp2)) }
{
    dutyfile::begins(file, Edition::Spp1) || dutyfile::begins(file, Edition::Spp2)
}

// Tests 1, 2 and 3: the first 8 bytes, and a file that ends inside its contents.
fn check_header(file: &[u8]) -> Result<(), Refusal>
    ensures { fault_of result ≡ header_fault file.now }
{
    if file.len() < 8 {
        return Err(Refusal::Magic);
    }
    if !is_marked(file) {
        return Err(Refusal::Magic);
    }
    let columns = dutyfile::column_count(file);
    dutyfile::check_counts(dutyfile::row_count(file), columns)?;
    if file.len() < 8 + 8 * columns {
        return Err(Refusal::Contents);
    }
    Ok(())
}

// Tests 4, 5, 6 and 7, for one entry after another.
fn check_contents(file: &[u8]) -> Result<usize, Refusal>
    requires { header_fault file.now ≡ fine }
    ensures { outcome result ≡ unless (contents_fault file.now) (sum (parse file.now).lengths) }
{
    let edition = dutyfile::edition_in(file);
    let rows = dutyfile::row_count(file);
    let columns = dutyfile::column_count(file);
    let table = contents::entries(file, columns);
    let mut total = 0;
    for j in 0..columns {
        let e = table[j];
        dutyfile::check_entry(edition, rows, columns, total, e)?;
        total += e.size as usize;
    }
    Ok(total)
}

// Test 9: each body is the part of the file from its start for its length.
fn check_bodies(file: &[u8]) -> Result<(), Refusal>
    requires file_value { header_fault file.now ≡ fine }
    requires file_value_2 { contents_fault file.now ≡ fine }
    requires file_value_3 { end_fault file.now ≡ fine }
    ensures { fault_of result ≡ rows_fault file.now }
{
    let rows = dutyfile::row_count(file);
    let columns = dutyfile::column_count(file);
    let table = contents::entries(file, columns);
    for j in 0..columns {
        let e = table[j];
        let start = e.start as usize;
        let end = start + e.size as usize;
        if !dutyfile::rises(&file[start..end], rows) {
            return Err(Refusal::Row);
        }
    }
    Ok(())
}

// Test 8, then 9, for a file whose contents have `total` row numbers.
fn examine_bodies(file: &[u8], total: usize) -> Result<Shape, Refusal>
    requires file_value { header_fault file.now ≡ fine }
    requires file_value_2 { contents_fault file.now ≡ fine }
    requires total_value { total ≡ sum (parse file.now).lengths }
    ensures { outcome result ≡ unless (file_fault file.now) (shape file.now) }
{
    let columns = dutyfile::column_count(file);
    if file.len() != 8 + 8 * columns + total {
        return Err(Refusal::End);
    }
    check_bodies(file)?;
    Ok(Shape {
        edition: dutyfile::edition_in(file),
        rows: dutyfile::row_count(file),
        columns,
        entries: total,
    })
}

// Tests 1 to 9: what an accepted file holds, or the first refusal. Nothing is lent.
pub fn examine(file: &[u8]) -> Result<Shape, Refusal>
    ensures { outcome result ≡ unless (file_fault file.now) (shape file.now) }
{
    check_header(file)?;
    let total = check_contents(file)?;
    examine_bodies(file, total)
}
