// Row statistics, and the best candidate of a node.
#![tactic(auto)]

ghost use Rattle.std.specs.Prelude.{◌≡◌, ◌&&◌, ◌≤◌, ◌<◌, eqb, []};
ghost use Rattle.rules.specs.Reduce.{candidate};
ghost use Rattle.node.specs.Stored.{matrix_in, Kept, HasRow, Columns};
ghost use Rattle.node.specs.View.{view};
ghost use Rattle.candidates.specs.Row.{joined, tally_in, Listed};
ghost use Rattle.candidates.specs.Best.{better, has_zero, Chooses};

use criteria::comes_before;
use node::{column_size, row_count, row_part};
use rules::Candidate;

// The statistics with one more free column, of a cost and a number of rows.
fn join(a: Candidate, cost: u32, size: u32) -> Candidate
    requires { (a.free < 4096) × (a.ties ≤ a.free) }
    ensures { result ≡ joined a cost size }
{
    if a.free == 0 {
        return Candidate {
            free: 1,
            ties: 1,
            cost,
            short: size,
            ..a
        };
    }
    if cost < a.cost {
        return Candidate {
            free: a.free + 1,
            ties: 1,
            cost,
            short: size,
            ..a
        };
    }
    if cost != a.cost {
        return Candidate {
            free: a.free + 1,
            ..a
        };
    }
    Candidate {
        free: a.free + 1,
        ties: a.ties + 1,
        short: a.short.min(size),
        ..a
    }
}

// The statistics of row i, in one pass over its columns.
fn statistics(
    cost: &[u32; 256],
    column: &[u8; 256],
    matrix: &[u16],
    row: &[u16],
    i: u32,
) -> Candidate
    requires { Listed matrix.now row.now }
    ensures { result ≡ tally_in (matrix_in matrix.now) cost.now column.now row.now i }
{
    let mut found = Candidate {
        free: 0,
        ties: 0,
        cost: 0,
        short: 0,
        row: i,
    };
    for &j in row {
        let j = usize::from(j);
        if column[j] == 1 {
            found = join(found, cost[j], column_size(matrix, j));
        }
    }
    found
}

// What the criteria look at in a row of a matrix.
pub fn row_candidate(cost: &[u32; 256], column: &[u8; 256], matrix: &[u16], i: usize) -> Candidate
    requires { HasRow matrix.now i }
    ensures { result ≡ candidate (matrix_in matrix.now) (view cost.now column.now []) i }
{
    statistics(cost, column, matrix, row_part(matrix, i), i as u32)
}

// The better of the best so far and one more row: a row with cost 0 is no candidate.
fn better_of(a: Candidate, b: Candidate) -> Candidate
    ensures { result ≡ better a b }
{
    if b.cost == 0 {
        return a;
    }
    if a.cost == 0 {
        return b;
    }
    if comes_before(b, a) {
        return b;
    }
    a
}

// Whether a column is free and at cost 0.
pub fn is_zero(mark: u8, cost: u32) -> bool
    ensures { result ≡ (eqb mark 1 && eqb cost 0) }
{
    mark == 1 && cost == 0
}

// Whether one of some columns is free and at cost 0.
fn has_zero(cost: &[u32; 256], column: &[u8; 256], columns: &[u16]) -> bool
    requires { Columns columns.now }
    ensures { result ≡ has_zero cost.now column.now columns.now }
{
    columns
        .iter()
        .any(|&j| is_zero(column[usize::from(j)], cost[usize::from(j)]))
}

// The row that the next reducing step uses, in one pass over the rows marked; its cost is 0 where there is no candidate. A row with a
// free column at cost 0 loses its mark: it is no candidate, nor will it be while costs only fall.
pub fn best_candidate<'a>(
    cost: &'a [u32; 256],
    column: &'a [u8; 256],
    row: &mut [u8; 64],
    matrix: &[u16],
) -> Candidate
    requires { Kept matrix.now }
    ensures { Chooses (matrix_in matrix.now) cost.now column.now row.old row.new result }
{
    let mut best = Candidate {
        free: 0,
        ties: 0,
        cost: 0,
        short: 0,
        row: 0,
    };
    for i in 0..row_count(matrix) {
        if row[i] == 1 {
            if has_zero(cost, column, row_part(matrix, i)) {
                row[i] = 0;
            } else {
                best = better_of(best, row_candidate(cost, column, matrix, i));
            }
        }
    }
    best
}
