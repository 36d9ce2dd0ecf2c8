// Pairs of columns (02, P8): what a pair asks, the pairs gone through in list sequence, and forcing and pairs done until nothing changes.
#![tactic(auto)]

ghost use Rattle.std.specs.Prelude.{◌≡◌, false, [], ◌<◌};
ghost use Rattle.node.specs.Matrix.{Matrix};
ghost use Rattle.node.specs.View.{view};
ghost use Rattle.node.specs.Stored.{matrix_in};
ghost use Rattle.rules.specs.Goals.{search_for, search_with};
ghost use Rattle.rules.specs.Pairs.{pair, pairs_of, pair_asked, pass};
ghost use Rattle.rules.proofs.Numbers.{Numbers};
ghost use Rattle.rules.proofs.Sides.{WorkableWith};
ghost use Rattle.pairs.specs.Asks.{some_asks, node_after};

use forcing::open_rows_ask;
use goals::join;
use node::Node;
use rules::{Asked, Forced, Goal, PairAsked};

// What a pair asks of a node with these marks: 1 free, 2 taken.
fn pair_asks(column: &[u8; 256], first: usize, second: usize) -> PairAsked
    requires { (first < 256) × (second < 256) }
    ensures { result ≡ pair_asked (view [] column.now []) (pair first second) }
{
    let a = column[first];
    let b = column[second];
    match a {
        2 => match b {
            1 => PairAsked::TakeSecond,
            2 => PairAsked::Nothing,
            _ => PairAsked::Dead,
        },
        1 => match b {
            1 => PairAsked::Nothing,
            2 => PairAsked::Nothing,
            _ => PairAsked::LeaveFirst,
        },
        _ => PairAsked::Nothing,
    }
}

// Whether some pair asks anything of a node with these marks.
fn some_asks(column: &[u8; 256], pairs: &[u16]) -> bool
    requires { Numbers 256 pairs.now }
    ensures { result ≡ some_asks column.now (pairs_of pairs.now) }
{
    for &[first, second] in pairs.as_chunks::<2>().0 {
        let asked = pair_asks(column, first as usize - 1, second as usize - 1);
        if !matches!(asked, PairAsked::Nothing) {
            return true;
        }
    }
    false
}

// The pairs in list sequence: the second is taken, by the step of forcing, the first is left, or the node is dead.
fn pass_pairs(goal: Goal, mut s: Node, matrix: &[u16], pairs: &[u16]) -> Forced
    requires { WorkableWith goal pairs.now matrix.now s }
    ensures { (let p : Matrix = matrix_in matrix.now in result ≡ node_after (pass (search_for goal p).join p (pairs_of pairs.now) s false)) }
{
    for &[first, second] in pairs.as_chunks::<2>().0 {
        let first = first as usize - 1;
        let second = second as usize - 1;
        match pair_asks(&s.column, first, second) {
            PairAsked::TakeSecond => {
                let bound = join(goal, s.bound, s.cost[second]);
                s = s.take(second, bound, matrix);
            }
            PairAsked::Dead => {
                return Forced {
                    node: s,
                    alive: false,
                };
            }
            PairAsked::LeaveFirst => s = s.leave(first),
            PairAsked::Nothing => {}
        }
    }
    Forced {
        node: s,
        alive: true,
    }
}

// Takes what is forced until nothing is, then goes through the side constraints, which are pairs; and again until nothing changes.
pub fn force_with(goal: Goal, mut s: Node, matrix: &[u16], side: &[u16]) -> Forced
    requires { WorkableWith goal side.now matrix.now s }
    ensures { result ≡ (search_with goal side.now (matrix_in matrix.now)).settle s }
{
    loop {
        let found = open_rows_ask(&s.column, &s.row, matrix);
        match found {
            Asked::Dead => {
                return Forced {
                    node: s,
                    alive: false,
                };
            }
            Asked::Settled => {
                if !some_asks(&s.column, side) {
                    return Forced {
                        node: s,
                        alive: true,
                    };
                }
                let passed = pass_pairs(goal, s, matrix, side);
                s = passed.node;
                if !passed.alive {
                    return Forced {
                        node: s,
                        alive: false,
                    };
                }
            }
            Asked::Take(j) => {
                let bound = join(goal, s.bound, s.cost[j]);
                s = s.take(j, bound, matrix);
            }
        }
    }
}
