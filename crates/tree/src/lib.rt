// The tree (01, The tree): a node opens branches and a branch enters a node; the number of free columns falls.
#![tactic(auto)]

ghost use Rattle.std.specs.Prelude.{◌≡◌, ℕ, ◌+◌, ◌≤◌, ◌<◌};
ghost use Rattle.node.specs.Matrix.{Matrix, width};
ghost use Rattle.node.specs.View.{node_of};
ghost use Rattle.node.specs.Stored.{matrix_in};
ghost use Rattle.rules.specs.Limited.{proceed, limited};
ghost use Rattle.rules.specs.Tree.{sum, visit};
ghost use Rattle.rules.specs.Goals.{search_for, search_with};
ghost use Rattle.rules.proofs.Rows.{size};
ghost use Rattle.rules.proofs.Sides.{WorkableWith};
ghost use Rattle.tally.specs.Tally.{shown};
ghost use Rattle.visit.specs.Settled.{settled};
ghost use Rattle.tree.specs.Walks.{Walks, Branching, branches, choice_of, Choosable, Chooses};

use choice::{branch_row, without_bound};
use columns::branch_column;
use goals::{join, present};
use node::Node;
use rules::Goal;
use tally::{Tally, enter, halt, is_reached, offer};
use visit::{Settled, settle};

// Settles a node. A function of its own, so that the copy of the node that is handed on takes no room while the branches are walked.
fn settle_node(goal: Goal, s: Node, matrix: &[u16], side: &[u16]) -> Settled
    requires { WorkableWith goal side.now matrix.now s }
    ensures { result ≡ settled (search_with goal side.now (matrix_in matrix.now)) (matrix_in matrix.now) s }
{
    settle(goal, s, matrix, side)
}

// A node with all below it, entered if one is left of the node limit.
#[cycle(branch_node)]
pub fn node(goal: Goal, s: Node, t: Tally, matrix: &[u16], side: &[u16]) -> Tally
    requires { Walks goal side.now matrix.now s t }
    ensures tree { (let p : Matrix = matrix_in matrix.now in (f : ℕ) → size p s < f → shown (width p) result ≡ limited (visit (search_with goal side.now p) p) f s (shown (width p) t)) }
    ensures sum { result.nodes + result.left ≡ t.nodes + t.left }
{
    if t.left == 0 {
        return halt(t);
    }
    let u = enter(t);
    let found = settle_node(goal, s, matrix, side);
    if !found.alive {
        return u;
    }
    let n = found.node;
    if found.full {
        return offer(u, n);
    }
    if is_reached(n.bound, u.kept, u.cost) {
        return u;
    }
    branch(goal, n, u, matrix, side)
}

// What a node branches on.
#[derive(Clone, Copy)]
struct Choice {
    // The column to take or leave.
    column: u32,
    // The bound of the branch without it.
    bound: u32,
}

// Chooses the row and the column to branch on, of a node with these tables of present costs and marks and this bound.
fn choose<'a>(
    cost: &'a [u32; 256],
    column: &'a [u8; 256],
    row: &'a [u8; 64],
    bound: u32,
    matrix: &[u16],
) -> Choice
    requires { Choosable matrix.now (node_of cost.now column.now row.now bound) }
    ensures { (let p : Matrix = matrix_in matrix.now in result ≡ choice_of (sum p) p (node_of cost.now column.now row.now bound)) }
{
    let best = branch_row(cost, column, row, matrix);
    let i = best.row as usize;
    let found = branch_column(cost, column, matrix, i);
    Choice {
        column: found as u32,
        bound: without_bound(bound, best),
    }
}

// Chooses by the goal: the costs in a node are the present ones for the sum, and for the longest duty the present ones are made.
fn choose_for<'a>(
    goal: Goal,
    cost: &'a [u32; 256],
    column: &'a [u8; 256],
    row: &'a [u8; 64],
    bound: u32,
    matrix: &[u16],
) -> Choice
    requires { Chooses goal matrix.now (node_of cost.now column.now row.now bound) }
    ensures { (let p : Matrix = matrix_in matrix.now in result ≡ choice_of (search_for goal p) p (node_of cost.now column.now row.now bound)) }
{
    match goal {
        Goal::Sum => choose(cost, column, row, bound, matrix),
        Goal::Longest => {
            let net = present(cost, bound);
            choose(&net, column, row, bound, matrix)
        }
    }
}

// The branch that takes a column, with all below it, and then the one without it.
#[cycle(branch_node)]
fn branch(goal: Goal, s: Node, mut t: Tally, matrix: &[u16], side: &[u16]) -> Tally
    requires { Branching goal side.now matrix.now s t }
    ensures tree { (let p : Matrix = matrix_in matrix.now in (f : ℕ) → size p s ≤ f → shown (width p) result ≡ proceed (branches (search_with goal side.now p) p s) (shown (width p) t) (limited (visit (search_with goal side.now p) p) f)) }
    ensures sum { result.nodes + result.left ≡ t.nodes + t.left }
{
    let chosen = choose_for(goal, &s.cost, &s.column, &s.row, s.bound, matrix);
    let j = chosen.column as usize;
    let bound = join(goal, s.bound, s.cost[j]);
    let mut child = s.take(j, bound, matrix);
    let u = node(goal, child, t, matrix, side);
    if u.stopped {
        return u;
    }
    if is_reached(chosen.bound, u.kept, u.cost) {
        return u;
    }
    child = s.leave(j);
    t = node(goal, child, u, matrix, side);
    t
}
