// The engine for C: each exported function makes one call and gives its answer as a struct of numbers. A list is a pointer and a number of
// places.
#![tactic(auto)]

ghost use Rattle.std.specs.Prelude.{◌≡◌, List, ℕ, pos, length};
ghost use Rattle.refusals.specs.Refusals.{accepted, filled};
ghost use Rattle.node.specs.Matrix.{Matrix, signed_price};
ghost use Rattle.node.specs.Node.{root};
ghost use Rattle.rules.specs.Tree.{sum};
ghost use Rattle.rules.specs.Longest.{dearest, longest};
ghost use Rattle.rules.specs.Requests.{Requests, asking, begun, requested, Granted};
ghost use Rattle.dutyfile.specs.declared.Edition.TheVariants.{Spp1, Spp2};
ghost use Rattle.dutyfile.specs.File.{Lists, parse, lists, render, added, instance};
ghost use Rattle.dutyfile.specs.Faults.{file_fault, reading, writing};
ghost use Rattle.verify.specs.Verdict.{checking};
ghost use Rattle.reduce.specs.Answer.{reducing, reduced_costs, used_rows};
ghost use Rattle.answer.specs.Demand.{SignedDemand3};
ghost use Rattle.search.specs.Requests.{searching_with, plan_list_with, longest_searching_with, longest_list_with};
ghost use Rattle.trials.specs.Trials.{Finding};
ghost use Rattle.trials.specs.Told.{Told};
ghost use Rattle.uncrewed.specs.Answer.{seen, uncrewing, uncrewed_list};
ghost use Rattle.assign.specs.Answer.{assigning, vessel_list};
ghost use Rattle.assign.specs.Assigned.{Assigned};
ghost use Rattle.desk.specs.declared.Way.TheVariants.{Adding, Removing};
ghost use Rattle.desk.specs.Desk.{desk_of, replying};
ghost use Rattle.desk.specs.Steps.{stepping, stepped, emptied};
ghost use Rattle.flat_assign.specs.Struct.{assigned_of, outcome_in};
ghost use Rattle.flat_desk.specs.Struct.{fault_number, step_of, reply_in};
ghost use Rattle.flat_uncrewed.specs.Struct.{uncrewed_of, uncrewed_in};
ghost use Rattle.flat.specs.Flat.{shape_of, written_of, checked_of, reduced_of, answer_of, values_in};

use flat::{SppAnswer, SppChecked, SppReduced, SppShape, SppWritten};
use flat_assign::SppAssigned;
use flat_desk::{SppReply, SppStep};
use flat_uncrewed::SppUncrewed;

// Reads a duty file: m, n and t, and its edition, with the front of each list filled; or a refusal, with every list as it was.
#[unsafe(no_mangle)]
pub extern "C" fn spp_core_read(
    file: &[u8],
    costs: &mut [i32],
    lengths: &mut [u16],
    rows: &mut [u8],
) -> SppShape
    ensures value { result ≡ shape_of (reading file.now (length costs.old) (length lengths.old) (length rows.old)) }
    ensures costs_after { costs.new ≡ filled (reading file.now (length costs.old) (length lengths.old) (length rows.old)) (parse file.now).costs costs.old }
    ensures lengths_after { lengths.new ≡ filled (reading file.now (length costs.old) (length lengths.old) (length rows.old)) (parse file.now).lengths lengths.old }
    ensures rows_after { rows.new ≡ filled (reading file.now (length costs.old) (length lengths.old) (length rows.old)) (parse file.now).numbers rows.old }
{
    let answer = reader::read(file, costs, lengths, rows);
    flat::flat_shape(answer)
}

// Writes a duty file of SPP1: its length, with the file at the front of the buffer; or a refusal, with the buffer as it was.
#[unsafe(no_mangle)]
pub extern "C" fn spp_core_write(
    rows: u16,
    costs: &[i32],
    lengths: &[u16],
    numbers: &[u8],
    out: &mut [u8],
) -> SppWritten
    ensures value { result ≡ written_of (writing (lists Spp1 rows costs.now lengths.now numbers.now) (length out.old)) }
    ensures out_after { out.new ≡ filled (writing (lists Spp1 rows costs.now lengths.now numbers.now) (length out.old)) (render (lists Spp1 rows costs.now lengths.now numbers.now)) out.old }
{
    let answer = writer::write(rows, costs, lengths, numbers, out);
    flat::flat_written(answer)
}

// Writes a duty file of SPP2: its length, with the file at the front of the buffer; or a refusal, with the buffer as it was.
#[unsafe(no_mangle)]
pub extern "C" fn spp_core_write2(
    rows: u16,
    costs: &[i32],
    lengths: &[u16],
    numbers: &[u8],
    out: &mut [u8],
) -> SppWritten
    ensures value { result ≡ written_of (writing (lists Spp2 rows costs.now lengths.now numbers.now) (length out.old)) }
    ensures out_after { out.new ≡ filled (writing (lists Spp2 rows costs.now lengths.now numbers.now) (length out.old)) (render (lists Spp2 rows costs.now lengths.now numbers.now)) out.old }
{
    let answer = writer::write2(rows, costs, lengths, numbers, out);
    flat::flat_written(answer)
}

// Checks an offered plan: its cost, or the lowest row not covered exactly once and how often it is covered, or a refusal.
#[unsafe(no_mangle)]
pub extern "C" fn spp_core_check(file: &[u8], columns: &[u16]) -> SppChecked
    ensures { result ≡ checked_of (checking file.now columns.now) }
{
    let answer = verify::check_plan(file, columns);
    flat::flat_checked(answer)
}

// Reduces a duty file of SPP1 as it stands: the lower bound and the number of rows used, with the reduced costs and the rows used at the front of
// the lists; or a refusal, with both lists as they were.
#[unsafe(no_mangle)]
pub extern "C" fn spp_core_reduce(file: &[u8], reduced: &mut [i32], order: &mut [u8]) -> SppReduced
    ensures value { result ≡ reduced_of (reducing file.now (length reduced.old) (length order.old)) }
    ensures reduced_after { reduced.new ≡ filled (reducing file.now (length reduced.old) (length order.old)) (reduced_costs file.now) reduced.old }
    ensures order_after { order.new ≡ filled (reducing file.now (length reduced.old) (length order.old)) (used_rows file.now) order.old }
{
    let answer = reduce::reduce(file, reduced, order);
    flat::flat_reduced(answer)
}

// Searches a duty file for its cheapest plan that holds every agreed column that is not absent, no absent one, and the first column of a pair
// only with the second, within a node limit: best, none or stopped, with the columns of the plan shown at the front of the list; or a
// refusal, with the list as it was.
#[unsafe(no_mangle)]
pub extern "C" fn spp_core_search(
    file: &[u8],
    node_limit: u32,
    agreed: &[u16],
    absent: &[u16],
    pairs: &[u16],
    plan: &mut [u16],
) -> SppAnswer
    ensures value { result ≡ answer_of (searching_with file.now node_limit (asking agreed.now absent.now pairs.now) (length plan.old)) }
    ensures plan_after { plan.new ≡ filled (searching_with file.now node_limit (asking agreed.now absent.now pairs.now) (length plan.old)) (plan_list_with file.now node_limit (asking agreed.now absent.now pairs.now)) plan.old }
    ensures signed_demand3 { (let d : Lists = parse file.now in let m : Matrix = (instance d).matrix in let cs : List ℕ = (instance d).costs in let q : Requests = asking agreed.now absent.now pairs.now in result.refusal ≡ 0 → SignedDemand3 m (requested m q (sum m)) (begun (sum m) m q (root m cs)) (Granted m q) (signed_price m d.costs) (added file.now) node_limit (values_in result) plan.new) }
{
    let answer = search::search(file, node_limit, agreed, absent, pairs, plan);
    flat::flat_answer(answer)
}

// Searches a duty file of SPP1 for a plan whose dearest duty costs least, with lists as for `spp_core_search`, within a node limit: best, none or
// stopped, where the price is the largest of the plan's costs, with the columns of the plan shown at the front of the list; or a refusal,
// with the list as it was.
#[unsafe(no_mangle)]
pub extern "C" fn spp_core_longest(
    file: &[u8],
    node_limit: u32,
    agreed: &[u16],
    absent: &[u16],
    pairs: &[u16],
    plan: &mut [u16],
) -> SppAnswer
    ensures value { result ≡ answer_of (longest_searching_with file.now node_limit (asking agreed.now absent.now pairs.now) (length plan.old)) }
    ensures plan_after { plan.new ≡ filled (longest_searching_with file.now node_limit (asking agreed.now absent.now pairs.now) (length plan.old)) (longest_list_with file.now node_limit (asking agreed.now absent.now pairs.now)) plan.old }
    ensures signed_demand3 { (let d : Lists = parse file.now in let m : Matrix = (instance d).matrix in let cs : List ℕ = (instance d).costs in let q : Requests = asking agreed.now absent.now pairs.now in result.refusal ≡ 0 → SignedDemand3 m (requested m q (longest m)) (begun (longest m) m q (root m cs)) (Granted m q) (λ X. pos (dearest m cs X)) (added file.now) node_limit (values_in result) plan.new) }
{
    let answer = search::longest(file, node_limit, agreed, absent, pairs, plan);
    flat::flat_answer(answer)
}

// Gives each crew a vessel of its own at the least total, by a table of 16 rows of 16 prices: best with the total and the vessel of each crew,
// counted from 1, at the front of the list, of equals the assignment whose vessel numbers come first; or none or a refusal, with the list as
// it was.
#[unsafe(no_mangle)]
pub extern "C" fn spp_core_assign(
    crews: usize,
    vessels: usize,
    table: &[[u32; 16]; 16],
    answer: &mut [u8],
) -> SppAssigned
    ensures value { result ≡ assigned_of (assigning table.now crews vessels (length answer.old)) }
    ensures answer_after { answer.new ≡ filled (assigning table.now crews vessels (length answer.old)) (vessel_list table.now crews vessels) answer.old }
    ensures assigned { Assigned table.now crews vessels (outcome_in result) answer.new }
{
    let found = assign::assign(crews, vessels, *table, answer);
    flat_assign::flat_assigned(found)
}

// Finds the smallest row k such that no columns that share no row cover the rows 1 to k, by trials within the node limit each: k, with columns
// that cover the rows before it at the front of the list; or that a plan exists, the row whose trial was stopped without a plan, or a
// refusal, with the list as it was.
#[unsafe(no_mangle)]
pub extern "C" fn spp_core_uncrewed(file: &[u8], node_limit: u32, shown: &mut [u16]) -> SppUncrewed
    ensures value { result ≡ uncrewed_of (uncrewing file.now node_limit (length shown.old)) }
    ensures shown_after { shown.new ≡ filled (uncrewing file.now node_limit (length shown.old)) (uncrewed_list file.now node_limit) shown.old }
    ensures told { (x : Finding) → seen (uncrewed_in result) shown.new ≡ accepted x → Told (parse file.now) node_limit x }
{
    let found = uncrewed::uncrewed(file, node_limit, shown);
    flat_uncrewed::flat_uncrewed(found)
}

// Makes a desk empty over a duty file, whatever it held: 0; or a refusal's number, with the desk as it was.
#[unsafe(no_mangle)]
pub extern "C" fn spp_core_desk_empty(
    file: &[u8],
    marks: &mut [u8; 256],
    covered: &mut [u32; 64],
    off: &mut u32,
    total: &mut i32,
) -> u32
    ensures value { result ≡ fault_number (file_fault file.now) }
    ensures total_after { desk_of marks.new covered.new off.new total.new ≡ emptied file.now (desk_of marks.old covered.old off.old total.old) }
{
    let made = desk::empty(file, marks, covered, off, total);
    flat_desk::flat_check(made)
}

// Adds a column of a duty file to a desk, whatever the desk holds: changed, or unchanged where the column is in already, or a refusal; with
// these two the desk is as it was.
#[unsafe(no_mangle)]
pub extern "C" fn spp_core_desk_add(
    file: &[u8],
    column: u32,
    marks: &mut [u8; 256],
    covered: &mut [u32; 64],
    off: &mut u32,
    total: &mut i32,
) -> SppStep
    ensures value { result ≡ step_of (stepping Adding file.now column (desk_of marks.old covered.old off.old total.old)) }
    ensures total_after { desk_of marks.new covered.new off.new total.new ≡ stepped Adding file.now column (desk_of marks.old covered.old off.old total.old) }
{
    let said = desk::add(file, column, marks, covered, off, total);
    flat_desk::flat_step(said)
}

// Removes a column of a duty file from a desk, whatever the desk holds: changed, or unchanged where the column is not in, or a refusal; with
// these two the desk is as it was.
#[unsafe(no_mangle)]
pub extern "C" fn spp_core_desk_remove(
    file: &[u8],
    column: u32,
    marks: &mut [u8; 256],
    covered: &mut [u32; 64],
    off: &mut u32,
    total: &mut i32,
) -> SppStep
    ensures value { result ≡ step_of (stepping Removing file.now column (desk_of marks.old covered.old off.old total.old)) }
    ensures total_after { desk_of marks.new covered.new off.new total.new ≡ stepped Removing file.now column (desk_of marks.old covered.old off.old total.old) }
{
    let said = desk::remove(file, column, marks, covered, off, total);
    flat_desk::flat_step(said)
}

// Whether the columns that are in are a plan, and what it costs, by the last two numbers of a desk alone.
#[unsafe(no_mangle)]
pub extern "C" fn spp_core_desk_reply(off: u32, total: i32) -> SppReply
    ensures { result ≡ reply_in (replying off total) }
{
    flat_desk::flat_reply(desk::reply(off, total))
}
