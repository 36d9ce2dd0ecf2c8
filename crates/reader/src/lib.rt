// The reader: a file is tested whole, and only then are the lent lists filled.
#![tactic(auto)]

ghost use Rattle.std.specs.Prelude.{◌≡◌, ◌+◌, ◌*◌, ◌≤◌, length};
ghost use Rattle.refusals.specs.Refusals.{fine, fault_of, outcome, front, filled};
ghost use Rattle.dutyfile.specs.File.{columns_in, parse};
ghost use Rattle.dutyfile.specs.Faults.{header_fault, rooms_fault, reading};

use dutyfile::Shape;
use refusals::Refusal;

// The costs and the body lengths of all columns, at the front of the lists.
fn fill_columns(file: &[u8], costs: &mut [i32], lengths: &mut [u16])
    requires file_value { header_fault file.now ≡ fine }
    requires file_in_bounds { columns_in file.now ≤ length costs.old }
    requires file_in_bounds_2 { columns_in file.now ≤ length lengths.old }
    ensures costs_after { costs.new ≡ front (parse file.now).costs costs.old }
    ensures lengths_after { lengths.new ≡ front (parse file.now).lengths lengths.old }
{
    let columns = dutyfile::column_count(file);
    let table = contents::entries(file, columns);
    for k in 0..columns {
        let e = table[k];
        let cost = signed::from_bits(e.cost);
        costs[k] = cost;
        lengths[k] = e.size;
    }
}

// The row numbers of all bodies.
fn fill_rows(file: &[u8], rows: &mut [u8])
    requires file_value { header_fault file.now ≡ fine }
    requires file_in_bounds { length (parse file.now).numbers ≤ length rows.old }
    ensures { rows.new ≡ front (parse file.now).numbers rows.old }
{
    let start = 8 + 8 * dutyfile::column_count(file);
    let end = file.len();
    endian::put(rows, 0, &file[start..end]);
}

// Test 10, for lists of so many places.
fn check_rooms(found: Shape, costs: usize, lengths: usize, rows: usize) -> Result<(), Refusal>
    ensures { fault_of result ≡ rooms_fault found costs lengths rows }
{
    if costs < found.columns {
        return Err(Refusal::Room);
    }
    if lengths < found.columns {
        return Err(Refusal::Room);
    }
    if rows < found.entries {
        return Err(Refusal::Room);
    }
    Ok(())
}

// Reads a duty file: the edition, m, n and t, with the front of each list filled; or a refusal, with every list as it was.
pub fn read(
    file: &[u8],
    costs: &mut [i32],
    lengths: &mut [u16],
    rows: &mut [u8],
) -> Result<Shape, Refusal>
    ensures result_value { outcome result ≡ reading file.now (length costs.old) (length lengths.old) (length rows.old) }
    ensures costs_after { costs.new ≡ filled (outcome result) (parse file.now).costs costs.old }
    ensures lengths_after { lengths.new ≡ filled (outcome result) (parse file.now).lengths lengths.old }
    ensures rows_after { rows.new ≡ filled (outcome result) (parse file.now).numbers rows.old }
{
    let found = examine::examine(file)?;
    check_rooms(found, costs.len(), lengths.len(), rows.len())?;
    fill_columns(file, costs, lengths);
    fill_rows(file, rows);
    Ok(found)
}
