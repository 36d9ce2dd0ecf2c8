// The public call that finds which sailings can't be crewed (02, P6): the file is read, and its trials are searched one after another.
#![tactic(auto)]

ghost use Rattle.std.specs.Prelude.{◌≡◌, ◌≤◌, length};
ghost use Rattle.refusals.specs.Refusals.{fault_of, accepted, unless, front, filled};
ghost use Rattle.dutyfile.specs.File.{parse};
ghost use Rattle.trials.specs.Trials.{Finding, finding};
ghost use Rattle.trials.specs.Told.{Told};
ghost use Rattle.trial.specs.Ready.{held, Ready};
ghost use Rattle.uncrewed.specs.Answer.{told, uncrewed_outcome, values_of, shown_of, seen, trials_fault, Sized};
ghost use Rattle.uncrewed.specs.Answer.{uncrewed_fault, file_uncrewed_fault, uncrewing, uncrewed_list};

use dutyfile::{Edition, Shape};
use refusals::Refusal;

// The smallest row that can't be crewed together with those before it.
#[derive(Clone, Copy)]
pub struct Reached {
    // 02's k: the row, numbered from 1.
    pub row: u32,
    // How many columns are shown, which cover the rows before it.
    pub columns: u32,
}

// Which sailings of a file can't be crewed.
#[derive(Clone, Copy)]
pub enum UncrewedAnswer {
    // No columns that share no row cover the rows up to this one.
    NoCrew(Reached),
    PlanExists,
    // The trial of this row reached the node limit, with no plan kept.
    Stopped(u32),
}

// 18, then 6 with the columns that the first trial appends.
fn check_trials(found: Shape) -> Result<(), Refusal>
    requires { Sized found }
    ensures { fault_of result ≡ trials_fault found }
{
    if found.columns > 192 {
        return Err(Refusal::TrialColumns);
    }
    if found.entries + (found.rows - 1) > 4096 {
        return Err(Refusal::Total);
    }
    Ok(())
}

// 18, 6, then 10 for a list of so many places, then 11.
fn check_uncrewed(found: Shape, places: usize, limit: u32) -> Result<(), Refusal>
    requires { Sized found }
    ensures { fault_of result ≡ uncrewed_fault found places limit }
{
    check_trials(found)?;
    search::check_call(found, places, limit)
}

// The trials of a file, from the first row upwards, each within the whole node limit, by the lists of the file.
fn run_trials(
    found: Shape,
    costs: [i32; 256],
    lengths: [u16; 256],
    numbers: [u8; 4096],
    limit: u32,
    shown: &mut [u16],
) -> UncrewedAnswer
    requires { Ready found costs lengths numbers limit × (found.rows ≤ length shown.old) }
    ensures result_value { told result ≡ values_of (finding (held found costs lengths numbers) limit) }
    ensures shown_after { shown.new ≡ front (shown_of (finding (held found costs lengths numbers) limit)) shown.old }
{
    let rows = found.rows;
    let columns = found.columns;
    // The marks of no columns.
    let mut plan = [0u8; 256];
    for k in 1..=rows {
        let done = trial::search_trial(found, costs, lengths, numbers, k, limit);
        let tally = done.tally;
        if !tally.kept {
            let row = k as u32;
            if tally.stopped {
                return UncrewedAnswer::Stopped(row);
            }
            let count = answer::put_plan(&plan, columns, shown) as u32;
            return UncrewedAnswer::NoCrew(Reached {
                row,
                columns: count,
            });
        }
        plan = tally.plan;
    }
    UncrewedAnswer::PlanExists
}

// Reads a duty file of either edition, and runs its trials.
fn uncrewed_file(file: &[u8], limit: u32, shown: &mut [u16]) -> Result<UncrewedAnswer, Refusal>
    ensures result_value { uncrewed_outcome result ≡ unless (file_uncrewed_fault file.now limit (length shown.old)) (values_of (finding (parse file.now) limit)) }
    ensures shown_after { shown.new ≡ filled (uncrewed_outcome result) (uncrewed_list file.now limit) shown.old }
    ensures told { (x : Finding) → seen (uncrewed_outcome result) shown.new ≡ accepted x → Told (parse file.now) limit x }
{
    let mut costs = lists::no_prices();
    let mut lengths = lists::no_lengths();
    let mut numbers = lists::no_numbers();
    let found = lists::read_lists(file, &mut costs, &mut lengths, &mut numbers)?;
    check_uncrewed(found, shown.len(), limit)?;
    Ok(run_trials(found, costs, lengths, numbers, limit, shown))
}

// Finds the smallest k such that no columns that share no row cover the rows 1 to k of a duty file of SPP1, by trials within a node limit
// (01: allowance) each: k, with columns that cover the rows before it at the front of the list; or that a plan exists, or the row whose
// trial was stopped without a plan; with these two, or refused, the list is as it was.
pub fn uncrewed(file: &[u8], limit: u32, shown: &mut [u16]) -> Result<UncrewedAnswer, Refusal>
    ensures result_value { uncrewed_outcome result ≡ uncrewing file.now limit (length shown.old) }
    ensures shown_after { shown.new ≡ filled (uncrewed_outcome result) (uncrewed_list file.now limit) shown.old }
    ensures told { (x : Finding) → seen (uncrewed_outcome result) shown.new ≡ accepted x → Told (parse file.now) limit x }
{
    if !dutyfile::begins(file, Edition::Spp1) {
        return Err(Refusal::Magic);
    }
    uncrewed_file(file, limit, shown)
}
