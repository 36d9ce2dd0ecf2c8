// The public search calls on a file: the file is read as a matrix and costs, searched from its root with what a desk asks of a plan, and
// the plan shown is written.
#![tactic(auto)]

ghost use Rattle.std.specs.Prelude.{◌≡◌, List, ℕ, pos, length};
ghost use Rattle.refusals.specs.Refusals.{fine, fault_of, accepted, filled};
ghost use Rattle.node.specs.Matrix.{Matrix, signed_price};
ghost use Rattle.node.specs.Node.{root};
ghost use Rattle.rules.specs.Tree.{sum};
ghost use Rattle.rules.specs.Longest.{dearest, longest};
ghost use Rattle.rules.specs.Requests.{Requests, asking, begun, requested, Granted};
ghost use Rattle.dutyfile.specs.File.{Lists, parse, added, instance};
ghost use Rattle.answer.specs.Answer.{Values, search_outcome};
ghost use Rattle.answer.specs.Demand.{SignedDemand3};
ghost use Rattle.search.specs.Searching.{call_fault};
ghost use Rattle.search.specs.Requests.{is_pair, are_pairs, pair_fault, request_fault, call_fault_with, searching_with, plan_list_with};
ghost use Rattle.search.specs.Requests.{longest_searching_with, longest_list_with};
ghost use Rattle.search.specs.Goals.{first_fault, searching_for, list_for, DemandFor};

use answer::SearchAnswer;
use dutyfile::{Edition, Shape, rises};
use refusals::Refusal;
use rules::Goal;

// What a desk asks of a plan: agreed columns, absent columns, and pairs, first and second column in turn.
#[derive(Clone, Copy)]
pub struct Asked<'a> {
    pub agreed: &'a [u16],
    pub absent: &'a [u16],
    pub pairs: &'a [u16],
}

// Whether two numbers are those of two columns of n.
fn is_pair(n: usize, a: usize, b: usize) -> bool
    ensures { result ≡ is_pair n a b }
{
    (1..=n).contains(&a) && (1..=n).contains(&b) && a != b
}

// Whether each pair of a list names two columns of n.
fn are_pairs(n: usize, pairs: &[u16]) -> bool
    ensures { result ≡ are_pairs n pairs.now }
{
    for k in 0..pairs.len() / 2 {
        let a = usize::from(pairs[2 * k]);
        let b = usize::from(pairs[2 * k + 1]);
        if !is_pair(n, a, b) {
            return false;
        }
    }
    true
}

// 21 for the length of a list of pairs, then 20 for the pairs.
fn check_pairs(n: usize, pairs: &[u16]) -> Result<(), Refusal>
    ensures { fault_of result ≡ pair_fault n pairs.now }
{
    if pairs.len() % 2 != 0 {
        return Err(Refusal::PairCount);
    }
    if pairs.len() > 256 {
        return Err(Refusal::PairCount);
    }
    if !are_pairs(n, pairs) {
        return Err(Refusal::Pair);
    }
    Ok(())
}

// 14 for the agreed columns, then 15 for the absent ones, then 21 and 20 for the pairs.
fn check_requests(found: Shape, asked: Asked<'_>) -> Result<(), Refusal>
    ensures { fault_of result ≡ request_fault found (asking asked.entry.agreed.now asked.entry.absent.now asked.entry.pairs.now) }
{
    if !rises(asked.agreed, found.columns) {
        return Err(Refusal::Agreed);
    }
    if !rises(asked.absent, found.columns) {
        return Err(Refusal::Absent);
    }
    check_pairs(found.columns, asked.pairs)
}

// 10 for a list of so many places, then 11.
pub fn check_call(found: Shape, places: usize, limit: u32) -> Result<(), Refusal>
    ensures { fault_of result ≡ call_fault found places limit }
{
    if places < found.rows {
        return Err(Refusal::Room);
    }
    if !(1..=1000000).contains(&limit) {
        return Err(Refusal::NodeLimit);
    }
    Ok(())
}

// 10, then 11, then those of the lists of columns.
fn check_call_with(found: Shape, places: usize, limit: u32, asked: Asked<'_>) -> Result<(), Refusal>
    ensures { fault_of result ≡ call_fault_with found places limit (asking asked.entry.agreed.now asked.entry.absent.now asked.entry.pairs.now) }
{
    check_call(found, places, limit)?;
    check_requests(found, asked)
}

// Searches a duty file for a goal, as both calls do.
fn search_for(
    goal: Goal,
    file: &[u8],
    limit: u32,
    asked: Asked<'_>,
    plan: &mut [u16],
) -> Result<SearchAnswer, Refusal>
    requires { first_fault goal file.now ≡ fine }
    ensures result_value { search_outcome result ≡ searching_for goal file.now limit (asking asked.entry.agreed.now asked.entry.absent.now asked.entry.pairs.now) (length plan.old) }
    ensures plan_after { plan.new ≡ filled (search_outcome result) (list_for goal file.now limit (asking asked.entry.agreed.now asked.entry.absent.now asked.entry.pairs.now)) plan.old }
    ensures demand_for { (v : Values) → search_outcome result ≡ accepted v → DemandFor goal file.now limit (asking asked.entry.agreed.now asked.entry.absent.now asked.entry.pairs.now) v plan.new }
{
    let mut matrix = matrix::no_cells();
    let mut costs = raising::no_costs();
    let found = lists::read_matrix(file, &mut matrix, &mut costs)?;
    check_call_with(found, plan.len(), limit, asked)?;
    let root = root::root_node(&matrix, costs);
    let start = requests::begin(goal, root, asked.agreed, asked.absent, &matrix);
    let done = solver::search_from(goal, start, &matrix, asked.pairs, limit);
    let added = raising::shift(found.edition, found.rows);
    Ok(answer::give(done, found.columns, added, plan))
}

// Searches a duty file within a node limit (01: allowance) for the cheapest plan that holds every agreed column that is not absent, no absent
// one, and the first column of a pair only with the second: the answer, with the plan that it shows at the front of the list; with no plan,
// or refused, the list is as it was.
pub fn search(
    file: &[u8],
    limit: u32,
    agreed: &[u16],
    absent: &[u16],
    pairs: &[u16],
    plan: &mut [u16],
) -> Result<SearchAnswer, Refusal>
    ensures result_value { search_outcome result ≡ searching_with file.now limit (asking agreed.now absent.now pairs.now) (length plan.old) }
    ensures plan_after { plan.new ≡ filled (search_outcome result) (plan_list_with file.now limit (asking agreed.now absent.now pairs.now)) plan.old }
    ensures signed_demand3 { (let d : Lists = parse file.now in let m : Matrix = (instance d).matrix in let cs : List ℕ = (instance d).costs in let q : Requests = asking agreed.now absent.now pairs.now in (v : Values) → search_outcome result ≡ accepted v → SignedDemand3 m (requested m q (sum m)) (begun (sum m) m q (root m cs)) (Granted m q) (signed_price m d.costs) (added file.now) limit v plan.new) }
{
    let asked = Asked {
        agreed,
        absent,
        pairs,
    };
    search_for(Goal::Sum, file, limit, asked, plan)
}

// Searches a duty file of SPP1 within a node limit for a plan whose dearest duty costs least (02, P1), with lists as for `search`: the answer, whose
// cost is the largest of the plan's costs, with the plan that it shows at the front of the list; with no plan, or refused, the list is as
// it was.
pub fn longest(
    file: &[u8],
    limit: u32,
    agreed: &[u16],
    absent: &[u16],
    pairs: &[u16],
    plan: &mut [u16],
) -> Result<SearchAnswer, Refusal>
    ensures result_value { search_outcome result ≡ longest_searching_with file.now limit (asking agreed.now absent.now pairs.now) (length plan.old) }
    ensures plan_after { plan.new ≡ filled (search_outcome result) (longest_list_with file.now limit (asking agreed.now absent.now pairs.now)) plan.old }
    ensures signed_demand3 { (let d : Lists = parse file.now in let m : Matrix = (instance d).matrix in let cs : List ℕ = (instance d).costs in let q : Requests = asking agreed.now absent.now pairs.now in (v : Values) → search_outcome result ≡ accepted v → SignedDemand3 m (requested m q (longest m)) (begun (longest m) m q (root m cs)) (Granted m q) (λ X. pos (dearest m cs X)) (added file.now) limit v plan.new) }
{
    if !dutyfile::begins(file, Edition::Spp1) {
        return Err(Refusal::Magic);
    }
    let asked = Asked {
        agreed,
        absent,
        pairs,
    };
    search_for(Goal::Longest, file, limit, asked, plan)
}
