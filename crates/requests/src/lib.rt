// What a desk asks of a plan, done to the root (02, P2 and P9): absent columns are left, then the agreed columns that are not absent are
// taken.
#![tactic(auto)]

ghost use Rattle.std.specs.Prelude.{◌≡◌};
ghost use Rattle.node.specs.Lists.{member};
ghost use Rattle.node.specs.Matrix.{Matrix};
ghost use Rattle.node.specs.Stored.{matrix_in};
ghost use Rattle.rules.specs.Agreed.{without, with_all, agreed_start, struck};
ghost use Rattle.rules.specs.Requests.{columns_of};
ghost use Rattle.rules.specs.Goals.{search_for};
ghost use Rattle.rules.proofs.Numbers.{Numbers};
ghost use Rattle.requests.specs.Numbers.{Takeable, Begins};

use goals::join;
use node::Node;
use rules::{Forced, Goal};

// The columns with these numbers are no longer free.
fn leave_all(mut s: Node, numbers: &[u16]) -> Node
    requires { Numbers 256 numbers.now }
    ensures { result ≡ without (columns_of numbers.now) s }
{
    for &number in numbers {
        let j = number as usize - 1;
        if s.column[j] == 1 {
            s = s.leave(j);
        }
    }
    s
}

// Whether a list holds a number.
fn holds(numbers: &[u16], number: u16) -> bool
    ensures { result ≡ member number numbers.now }
{
    numbers.iter().any(|&other| other == number)
}

// The agreed columns that are not absent are taken in list sequence, each by the step of forcing; one that is not free at its turn makes
// the node dead.
fn take_all(goal: Goal, mut s: Node, agreed: &[u16], absent: &[u16], matrix: &[u16]) -> Forced
    requires { Takeable goal matrix.now s agreed.now }
    ensures { (let p : Matrix = matrix_in matrix.now in result ≡ with_all (search_for goal p).join p (columns_of (struck agreed.now absent.now)) s) }
{
    for &number in agreed {
        if !holds(absent, number) {
            let j = number as usize - 1;
            if s.column[j] != 1 {
                return Forced {
                    node: s,
                    alive: false,
                };
            }
            let bound = join(goal, s.bound, s.cost[j]);
            s = s.take(j, bound, matrix);
        }
    }
    Forced {
        node: s,
        alive: true,
    }
}

// The start of a search for a goal, from the root.
pub fn begin(goal: Goal, root: Node, agreed: &[u16], absent: &[u16], matrix: &[u16]) -> Forced
    requires { Begins goal matrix.now root agreed.now absent.now }
    ensures { (let p : Matrix = matrix_in matrix.now in result ≡ agreed_start (search_for goal p).join p (columns_of (struck agreed.now absent.now)) (columns_of absent.now) root) }
{
    let fewer = leave_all(root, absent);
    take_all(goal, fewer, agreed, absent, matrix)
}
