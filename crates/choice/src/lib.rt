// The choice of the row to branch on, and the bound of the branch without the column.
#![tactic(auto)]

ghost use Rattle.std.specs.Prelude.{◌≡◌, [], ◌+◌, ◌≤◌, ◌<◌, length};
ghost use Rattle.node.specs.Passes.{better};
ghost use Rattle.rules.specs.Tree.{above_p};
ghost use Rattle.node.specs.Stored.{matrix_in, Kept, HasRow, Columns};
ghost use Rattle.node.specs.View.{view};
ghost use Rattle.choice.specs.Row.{penalty_at, branch_row, precedes, best_row, bound_without, lower_penalty, joined, tally_in};

use node::{row_count, row_part};

// What the choice of the row looks at in an open row.
#[derive(Clone, Copy)]
pub struct BranchRow {
    // How many free columns at cost 0 the row has.
    pub zeros: u32,
    // The penalty: the least cost above 0 among its free columns. 0 where there is none: it is then above any number.
    // No Option: penalty_at and what without_bound requires state it as a number.
    pub penalty: u32,
    // How many free columns the row has.
    pub free: u32,
    // The row, from 0.
    pub row: u32,
}

// A penalty with one more cost above 0.
fn lower_penalty(penalty: u32, cost: u32) -> u32
    ensures { result ≡ lower_penalty penalty cost }
{
    if penalty == 0 {
        return cost;
    }
    penalty.min(cost)
}

// The statistics with one more free column, of a cost.
fn join(mut a: BranchRow, cost: u32) -> BranchRow
    requires { (a.free < 4096) × (a.zeros ≤ a.free) }
    ensures { result ≡ joined a cost }
{
    a.free += 1;
    if cost == 0 {
        a.zeros += 1;
    } else {
        a.penalty = lower_penalty(a.penalty, cost);
    }
    a
}

// Whether penalty a is above penalty b.
fn is_above(a: u32, b: u32) -> bool
    ensures { result ≡ above_p (penalty_at a) (penalty_at b) }
{
    if b == 0 {
        return false;
    }
    if a == 0 {
        return true;
    }
    b < a
}

// Whether row a comes before row b: fewest free columns at cost 0, largest penalty, fewest free columns, lowest number.
pub fn row_precedes(a: BranchRow, b: BranchRow) -> bool
    ensures { result ≡ precedes a b }
{
    if a.zeros != b.zeros {
        return a.zeros < b.zeros;
    }
    if a.penalty != b.penalty {
        return is_above(a.penalty, b.penalty);
    }
    if a.free != b.free {
        return a.free < b.free;
    }
    a.row < b.row
}

// The better of the best row so far and row i, in one pass over its columns. The row is left once more of them are at cost 0 than the
// best row has.
fn better_of(
    cost: &[u32; 256],
    column: &[u8; 256],
    row: &[u16],
    i: u32,
    best: BranchRow,
) -> BranchRow
    requires { Columns row.now × (length row.now ≤ 4096) }
    ensures { result ≡ better precedes best (tally_in cost.now column.now row.now i) }
{
    let mut found = BranchRow {
        zeros: 0,
        penalty: 0,
        free: 0,
        row: i,
    };
    for &j in row {
        if column[j as usize] == 1 {
            found = join(found, cost[j as usize]);
            if best.zeros < found.zeros {
                return best;
            }
        }
    }
    if row_precedes(found, best) {
        return found;
    }
    best
}

// The better of the best row so far and row i of a matrix.
fn better_row(
    cost: &[u32; 256],
    column: &[u8; 256],
    matrix: &[u16],
    i: usize,
    best: BranchRow,
) -> BranchRow
    requires { HasRow matrix.now i }
    ensures { result ≡ better precedes best (branch_row (matrix_in matrix.now) (view cost.now column.now []) i) }
{
    let row = row_part(matrix, i);
    better_of(cost, column, row, i as u32, best)
}

// The row to branch on, in one pass over the open rows. Where no row is open it has 257 columns at cost 0, which no row has.
pub fn branch_row<'a>(
    cost: &'a [u32; 256],
    column: &'a [u8; 256],
    row: &'a [u8; 64],
    matrix: &[u16],
) -> BranchRow
    requires { Kept matrix.now }
    ensures { result ≡ best_row (matrix_in matrix.now) (view cost.now column.now row.now) }
{
    let rows = row_count(matrix);
    let mut best = BranchRow {
        zeros: 257,
        penalty: 0,
        free: 0,
        row: 0,
    };
    for i in 0..rows {
        if row[i] == 1 {
            best = better_row(cost, column, matrix, i, best);
        }
    }
    best
}

// The bound of the branch without the column: with the penalty where the row has just one column at cost 0.
pub fn without_bound(bound: u32, a: BranchRow) -> u32
    requires { bound + a.penalty < 4294967296 }
    ensures { result ≡ bound_without bound a }
{
    if a.zeros == 1 {
        return bound + a.penalty;
    }
    bound
}
