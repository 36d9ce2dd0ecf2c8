// What a node comes to when it is forced and reduced.
#![tactic(auto)]

ghost use Rattle.std.specs.Prelude.{◌≡◌, []};
ghost use Rattle.node.specs.Lists.{is_empty};
ghost use Rattle.node.specs.Node.{open_rows};
ghost use Rattle.node.specs.View.{view};
ghost use Rattle.node.specs.Stored.{matrix_in, Kept};
ghost use Rattle.rules.specs.Goals.{search_with};
ghost use Rattle.rules.proofs.Sides.{WorkableWith};
ghost use Rattle.visit.specs.Settled.{settled};

use goals::raise;
use lowering::reduce_node;
use node::{Node, row_count};
use pairs::force_with;
use rules::Goal;

// Whether no row is open.
fn is_full(row: &[u8; 64], matrix: &[u16]) -> bool
    requires { Kept matrix.now }
    ensures { result ≡ is_empty (open_rows (matrix_in matrix.now) (view [] [] row.now)) }
{
    let rows = row_count(matrix);
    for i in 0..rows {
        if row[i] == 1 {
            return false;
        }
    }
    true
}

// A node forced, and reduced where it is alive and has open rows. No Option, as in rules::Forced: the node stands in either case, since the
// bound of a dead root is answered too (solver::search_live).
#[derive(Clone, Copy)]
pub struct Settled {
    pub node: Node,
    // Each open row has a free column.
    pub alive: bool,
    // It is alive and no row is open: its taken columns are a plan.
    pub full: bool,
}

// Forces a node with its side constraints, and reduces it where it is alive and has open rows: for the sum as 01 does, for the longest duty by
// raising its bound.
pub fn settle(goal: Goal, s: Node, matrix: &[u16], side: &[u16]) -> Settled
    requires { WorkableWith goal side.now matrix.now s }
    ensures { result ≡ settled (search_with goal side.now (matrix_in matrix.now)) (matrix_in matrix.now) s }
{
    let forced = force_with(goal, s, matrix, side);
    let mut node = forced.node;
    if !forced.alive {
        return Settled {
            node,
            alive: false,
            full: false,
        };
    }
    if is_full(&node.row, matrix) {
        return Settled {
            node,
            alive: true,
            full: true,
        };
    }
    match goal {
        Goal::Sum => {
            let done = reduce_node(node, matrix);
            node = done.node;
        }
        Goal::Longest => {
            node.bound = raise(&node.cost, &node.column, &node.row, node.bound, matrix);
        }
    }
    Settled {
        node,
        alive: true,
        full: false,
    }
}
