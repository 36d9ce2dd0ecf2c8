// What differs by the goal of a search: the bound as a column is taken; and for the longest duty the bound raised, where the sum reduces,
// and the present costs.
#![tactic(auto)]

ghost use Rattle.std.specs.Prelude.{◌≡◌, ◌+◌, ◌<◌, max};
ghost use Rattle.node.specs.View.{node_of};
ghost use Rattle.node.specs.Stored.{matrix_in, Kept, Columns};
ghost use Rattle.rules.specs.Longest.{raised};
ghost use Rattle.goals.specs.Taking.{join_of};
ghost use Rattle.goals.specs.Raising.{least_in, less_bound};

use node::{row_count, row_part};
use rules::Goal;

// The bound with a column of a cost taken: for the sum the cost joins it, for the longest duty the larger of both counts.
pub fn join(goal: Goal, bound: u32, cost: u32) -> u32
    requires { bound + cost < 4294967296 }
    ensures { result ≡ join_of goal bound cost }
{
    match goal {
        Goal::Sum => bound + cost,
        Goal::Longest => bound.max(cost),
    }
}

// The larger of a bound and the least cost of the free ones of some columns. They are left at the first that costs no more than the
// bound.
fn raise_by(cost: &[u32; 256], column: &[u8; 256], columns: &[u16], bound: u32) -> u32
    requires { Columns columns.now }
    ensures { result ≡ max bound (least_in cost.now column.now columns.now) }
{
    let mut least: Option<u32> = None;
    for &j in columns {
        if column[j as usize] == 1 {
            let next = cost[j as usize];
            if next <= bound {
                return bound;
            }
            least = Some(least.map_or(next, |least| least.min(next)));
        }
    }
    bound.max(least.unwrap_or(0))
}

// The larger of a bound and the largest, over the open rows, of the least cost of a free column, in one pass over the rows.
pub fn raise<'a>(
    cost: &'a [u32; 256],
    column: &'a [u8; 256],
    row: &'a [u8; 64],
    bound: u32,
    matrix: &[u16],
) -> u32
    requires { Kept matrix.now }
    ensures { result ≡ (raised (matrix_in matrix.now) (node_of cost.now column.now row.now bound)).bound }
{
    let rows = row_count(matrix);
    let mut best = bound;
    for i in 0..rows {
        if row[i] == 1 {
            let columns = row_part(matrix, i);
            best = raise_by(cost, column, columns, best);
        }
    }
    best
}

// The present costs for the longest duty: each cost less the bound.
pub fn present(cost: &[u32; 256], bound: u32) -> [u32; 256]
    ensures { result ≡ less_bound bound cost.now }
{
    let mut net = [0u32; 256];
    for j in 0..256 {
        net[j] = cost[j].saturating_sub(bound);
    }
    net
}
