// The reducing call on a file.
#![tactic(auto)]

ghost use Rattle.std.specs.Prelude.{◌≡◌, map, pos, length, take};
ghost use Rattle.refusals.specs.Refusals.{fault_of, outcome, unless, filled, front};
ghost use Rattle.reduce.specs.Room.{CostRoom, Room};
ghost use Rattle.reduce.specs.Answer.{reduce_fault, bound_of, reducing, reduced_costs, used_rows, lists_fault};

use dutyfile::{Edition, Shape};
use lowering::{Reduction, reduce_node};
use refusals::Refusal;

// The lower bound and the number of rows used.
#[derive(Clone, Copy)]
pub struct Bound {
    // 01's floor.
    pub bound: i64,
    // 01's sailings used.
    pub used: usize,
}

// 10, for lists of so many places.
fn check_lists(found: Shape, reduced: usize, order: usize) -> Result<(), Refusal>
    ensures { fault_of result ≡ lists_fault found reduced order }
{
    if reduced < found.columns {
        return Err(Refusal::Room);
    }
    if order < found.rows {
        return Err(Refusal::Room);
    }
    Ok(())
}

// Costs at the front of a list.
fn put_costs(dst: &mut [i32], src: &[u32])
    requires { CostRoom src.now (length dst.old) }
    ensures { dst.new ≡ front (map pos src.now) dst.old }
{
    for (j, &cost) in src.iter().enumerate() {
        dst[j] = cost as i32;
    }
}

// A reduction's answer, with its first costs and its rows used at the front of two lists.
fn give(done: Reduction, columns: usize, reduced: &mut [i32], order: &mut [u8]) -> Bound
    requires { Room done columns (length reduced.old) (length order.old) }
    ensures value { result ≡ record { bound = pos done.node.bound; used = done.count } }
    ensures reduced_after { reduced.new ≡ front (map pos (take columns done.node.cost)) reduced.old }
    ensures order_after { order.new ≡ front (take done.count done.used) order.old }
{
    let node = done.node;
    let cost = node.cost;
    let used = done.used;
    let count = done.count;
    put_costs(reduced, &cost[0..columns]);
    endian::put(order, 0, &used[0..count]);
    Bound {
        bound: node.bound as i64,
        used: count,
    }
}

// Reduces a duty file of either edition, by the costs of a search.
fn reduce_file(file: &[u8], reduced: &mut [i32], order: &mut [u8]) -> Result<Bound, Refusal>
    ensures result_value { outcome result ≡ unless (reduce_fault file.now (length reduced.old) (length order.old)) (bound_of file.now) }
    ensures reduced_after { reduced.new ≡ filled (outcome result) (reduced_costs file.now) reduced.old }
    ensures order_after { order.new ≡ filled (outcome result) (used_rows file.now) order.old }
{
    let mut matrix = matrix::no_cells();
    let mut costs = raising::no_costs();
    let found = lists::read_matrix(file, &mut matrix, &mut costs)?;
    check_lists(found, reduced.len(), order.len())?;
    let root = root::root_node(&matrix, costs);
    let done = reduce_node(root, &matrix);
    Ok(give(done, found.columns, reduced, order))
}

// Reduces a duty file of SPP1 as it stands: the lower bound and the number of rows used, with the reduced costs and the rows used at the
// front of the lists; or a refusal, with both lists as they were.
pub fn reduce(file: &[u8], reduced: &mut [i32], order: &mut [u8]) -> Result<Bound, Refusal>
    ensures result_value { outcome result ≡ reducing file.now (length reduced.old) (length order.old) }
    ensures reduced_after { reduced.new ≡ filled (outcome result) (reduced_costs file.now) reduced.old }
    ensures order_after { order.new ≡ filled (outcome result) (used_rows file.now) order.old }
{
    if !dutyfile::begins(file, Edition::Spp1) {
        return Err(Refusal::Magic);
    }
    reduce_file(file, reduced, order)
}
