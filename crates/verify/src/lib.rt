// The plan check: how often each row is covered is counted column by column, and the lowest row that is off is told.
#![tactic(auto)]

ghost use Rattle.std.specs.Prelude.{◌≡◌, ℕ, ◌+◌, ◌<◌, ◌≤◌, true, length, slice_index};
ghost use Rattle.refusals.specs.Refusals.{fine, outcome};
ghost use Rattle.node.specs.Matrix.{signed_price, named};
ghost use Rattle.dutyfile.specs.File.{columns_in, parse, instance};
ghost use Rattle.dutyfile.specs.Faults.{rising, file_fault};
ghost use Rattle.verify.specs.Counts.{none_covered, counted, counted_all};
ghost use Rattle.verify.specs.Verdict.{lowest, checking};

use refusals::Refusal;

// What an offered plan comes to, where nothing is refused.
#[derive(Clone, Copy)]
pub enum Verdict {
    // The plan's cost, 01's price.
    Plan(i32),
    // The lowest row not covered exactly once, counted from 1, and how often it is covered.
    NotOnce(usize, u32),
}

// The rows of one more body are counted.
fn count_rows(body: &[u8], covered: &mut [u32; 64])
    requires covered_len { (length covered.old ≡ 64) × (rising 0 64 body.now ≡ true) }
    requires by_index { (i : ℕ) → slice_index covered.old i + length body.now < 4294967296 }
    ensures { covered.new ≡ counted body.now covered.old }
{
    for &number in body {
        let row = usize::from(number) - 1;
        covered[row] += 1;
    }
}

// How often each row is covered by the offered columns.
fn cover_counts(file: &[u8], columns: &[u16]) -> [u32; 64]
    requires file_value { file_fault file.now ≡ fine }
    requires columns_value { rising 0 (columns_in file.now) columns.now ≡ true }
    ensures { result ≡ counted_all (instance (parse file.now)).matrix columns.now none_covered }
{
    let mut covered = [0u32; 64];
    for &number in columns {
        let e = dutyfile::entry_at(file, usize::from(number) - 1);
        let start = usize::from(e.start);
        let end = start + usize::from(e.size);
        count_rows(&file[start..end], &mut covered);
    }
    covered
}

// What the offered columns cost.
fn total_cost(file: &[u8], columns: &[u16]) -> i32
    requires file_value { file_fault file.now ≡ fine }
    requires columns_value { rising 0 (columns_in file.now) columns.now ≡ true }
    ensures { result ≡ signed_price (instance (parse file.now)).matrix (parse file.now).costs (named columns.now) }
{
    let mut cost = 0u32;
    for &number in columns {
        let e = dutyfile::entry_at(file, usize::from(number) - 1);
        cost = cost.wrapping_add(e.cost);
    }
    signed::from_bits(cost)
}

// The lowest of the rows that is not covered exactly once; else a plan at this cost.
fn judge(covered: &[u32; 64], rows: usize, cost: i32) -> Verdict
    requires { rows ≤ 64 }
    ensures { result ≡ lowest (λ i. slice_index covered.now i) cost rows 0 }
{
    for i in 0..rows {
        let times = covered[i];
        if times != 1 {
            return Verdict::NotOnce(i + 1, times);
        }
    }
    Verdict::Plan(cost)
}

// Checks an offered plan: its cost, or the lowest row not covered exactly once and how often it is covered, or a refusal.
pub fn check_plan(file: &[u8], columns: &[u16]) -> Result<Verdict, Refusal>
    ensures { outcome result ≡ checking file.now columns.now }
{
    let shape = examine::examine(file)?;
    if !dutyfile::rises(columns, shape.columns) {
        return Err(Refusal::Offered);
    }
    let covered = cover_counts(file, columns);
    Ok(judge(&covered, shape.rows, total_cost(file, columns)))
}
