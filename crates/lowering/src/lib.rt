// Reducing a node: the step, and the loop that ends when no candidate is left.
#![tactic(auto)]

ghost use Rattle.std.specs.Prelude.{◌≡◌, []};
ghost use Rattle.node.specs.View.{view};
ghost use Rattle.node.specs.Stored.{matrix_in, Columns};
ghost use Rattle.rules.specs.Reduce as rules;
ghost use Rattle.rules.proofs.Costs.{Workable};
ghost use Rattle.lowering.specs.Lower.{lower_at, Covered, Rising, Lowerable};
ghost use Rattle.lowering.specs.Done.{Done};

use candidates::best_candidate;
use node::{Node, row_part};

// A node reduced, with the rows used, numbered from 1, at the front of a list.
#[derive(Clone, Copy)]
pub struct Reduction {
    pub node: Node,
    pub used: [u8; 64],
    pub count: usize,
}

// An amount off the costs of the free columns of a row.
fn lower_costs(cost: &mut [u32; 256], column: &[u8; 256], row: &[u16], amount: u32)
    requires { Covered column.now cost.old amount row.now × Rising row.now × Columns row.now }
    ensures { cost.new ≡ lower_at column.now cost.old amount row.now cost.old }
{
    for k in 0..row.len() {
        let j = usize::from(row[k]);
        if column[j] == 1 {
            cost[j] -= amount;
        }
    }
}

// The step on the costs: an amount leaves the free columns of row i.
fn lower(cost: &mut [u32; 256], column: &[u8; 256], matrix: &[u16], i: usize, amount: u32)
    requires { Lowerable cost.old column.now matrix.now i amount }
    ensures { cost.new ≡ (rules.lower (matrix_in matrix.now) (view cost.old column.now []) i amount).cost }
{
    lower_costs(cost, column, row_part(matrix, i), amount);
}

// Reduces a node: while there is a candidate, the best one is used. Rows that can be candidates no more lose their marks in a table
// of their own, so that later steps do not read them.
pub fn reduce_node(mut node: Node, matrix: &[u16]) -> Reduction
    requires { Workable matrix.now node }
    ensures { Done (matrix_in matrix.now) node result }
{
    let mut left = node.row;
    let mut used = [0u8; 64];
    let mut count: usize = 0;
    let mut best = best_candidate(&node.cost, &node.column, &mut left, matrix);
    while best.cost != 0 {
        lower(
            &mut node.cost,
            &node.column,
            matrix,
            best.row as usize,
            best.cost,
        );
        node.bound += best.cost;
        used[count] = (best.row + 1) as u8;
        count += 1;
        best = best_candidate(&node.cost, &node.column, &mut left, matrix);
    }
    Reduction { node, used, count }
}
