// The search of a matrix from a start, a first node that is alive or dead: the tally of the walk within a node limit, and the first node's
// lower bound.
#![tactic(auto)]

ghost use Rattle.std.specs.Prelude.{◌≡◌};
ghost use Rattle.node.specs.Matrix.{Matrix, width};
ghost use Rattle.node.specs.Stored.{matrix_in};
ghost use Rattle.rules.specs.Tree.{live, answer};
ghost use Rattle.rules.specs.Goals.{search_with};
ghost use Rattle.solver.specs.Solved.{Searchable, solved_answer};

use node::Node;
use rules::{Forced, Goal};
use tally::{Tally, enter, fresh_tally};
use visit::settle;

// A walk's tally at its end, and the first node's lower bound.
#[derive(Clone, Copy)]
pub struct Solved {
    pub tally: Tally,
    // 01's root floor.
    pub bound: u32,
}

// Searches a matrix for a goal with side constraints, from a first node that is alive.
pub fn search_live(goal: Goal, first: Node, matrix: &[u16], side: &[u16], limit: u32) -> Solved
    requires { Searchable goal side.now matrix.now first limit }
    ensures { (let p : Matrix = matrix_in matrix.now in solved_answer (width p) result ≡ answer (search_with goal side.now p) p (live first) limit) }
{
    let settled = settle(goal, first, matrix, side);
    let root = settled.node;
    let fresh = fresh_tally(limit);
    let tally = tree::node(goal, first, fresh, matrix, side);
    Solved {
        tally,
        bound: root.bound,
    }
}

// Searches a matrix for a goal with side constraints, from a start within a node limit. A dead start is entered and ends, and no bound is
// answered.
pub fn search_from(goal: Goal, start: Forced, matrix: &[u16], side: &[u16], limit: u32) -> Solved
    requires { Searchable goal side.now matrix.now start.node limit }
    ensures { (let p : Matrix = matrix_in matrix.now in solved_answer (width p) result ≡ answer (search_with goal side.now p) p start limit) }
{
    if start.alive {
        return search_live(goal, start.node, matrix, side, limit);
    }
    let fresh = fresh_tally(limit);
    Solved {
        tally: enter(fresh),
        bound: 0,
    }
}
