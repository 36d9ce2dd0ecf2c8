// The answer of a search that has ended, and the plan that it shows, written into a list.
#![tactic(auto)]

ghost use Rattle.std.specs.Prelude.{◌≡◌, map, suc, length};
ghost use Rattle.refusals.specs.Refusals.{front};
ghost use Rattle.rules.specs.Search.{shown_by};
ghost use Rattle.tally.specs.Tally.{taken_in};
ghost use Rattle.solver.specs.Solved.{solved_answer};
ghost use Rattle.answer.specs.Answer.{told, lowered, values_of, plan_numbers};
ghost use Rattle.answer.specs.Plan.{PlanFits, PlanRoom};

use solver::Solved;

// A plan that is shown.
#[derive(Clone, Copy)]
pub struct Found {
    // 01's price.
    pub cost: i64,
    // 01's root floor.
    pub bound: i64,
    pub nodes: u32,
    // How many columns the plan has.
    pub columns: usize,
}

// The node limit is reached and no plan is kept.
#[derive(Clone, Copy)]
pub struct Halted {
    // 01's root floor.
    pub bound: i64,
    pub nodes: u32,
}

// What a search of a file comes to.
#[derive(Clone, Copy)]
pub enum SearchAnswer {
    // The cheapest plan.
    Best(Found),
    // There is no plan; the number of nodes.
    None(u32),
    // Stopped at the node limit, with no plan kept.
    Stopped(Halted),
    // Stopped at the node limit, with this plan kept.
    StoppedWith(Found),
}

// Writes the taken ones of the first columns, numbered from 1, at the front of a list, and gives how many they are.
pub fn put_plan(marks: &[u8; 256], columns: usize, plan: &mut [u16]) -> usize
    requires { PlanRoom marks.now columns (length plan.old) }
    ensures value { result ≡ length (taken_in columns marks.now) }
    ensures plan_after { plan.new ≡ front (map suc (taken_in columns marks.now)) plan.old }
{
    let mut count = 0;
    for j in 0..columns {
        if marks[j] == 2 {
            plan[count] = (j + 1) as u16;
            count += 1;
        }
    }
    count
}

// A cost or a bound, less what the search added (02, P10).
fn lowered(cost: u32, added: u32) -> i64
    ensures { result ≡ lowered added cost }
{
    i64::from(cost) - i64::from(added)
}

// The answer of a search that has ended, where it added so much to the price of every plan, with the plan that it shows at the front of a
// list.
pub fn give(done: Solved, columns: usize, added: u32, plan: &mut [u16]) -> SearchAnswer
    requires { PlanFits done columns (length plan.old) }
    ensures result_value { told result ≡ values_of added (solved_answer columns done) }
    ensures plan_after { plan.new ≡ front (plan_numbers (shown_by (solved_answer columns done))) plan.old }
{
    let tally = done.tally;
    let bound = lowered(done.bound, added);
    if !tally.kept {
        if tally.stopped {
            return SearchAnswer::Stopped(Halted {
                bound,
                nodes: tally.nodes,
            });
        }
        return SearchAnswer::None(tally.nodes);
    }
    let count = put_plan(&tally.plan, columns, plan);
    let found = Found {
        cost: lowered(tally.cost, added),
        bound,
        nodes: tally.nodes,
        columns: count,
    };
    if tally.stopped {
        return SearchAnswer::StoppedWith(found);
    }
    SearchAnswer::Best(found)
}
