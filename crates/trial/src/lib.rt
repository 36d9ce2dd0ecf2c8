// One trial (02, P6): its lists, made from those of a file, and its search.
#![tactic(auto)]

ghost use Rattle.std.specs.Prelude.{◌≡◌, suc, ◌+◌, ◌-◌, ◌≤◌, pos, replicate};
ghost use Rattle.std.proofs.lemmas.List.Edits.{sets};
ghost use Rattle.node.specs.Lists.{from};
ghost use Rattle.solver.specs.Solved.{solved_answer};
ghost use Rattle.trials.specs.Trials.{trial};
ghost use Rattle.trial.specs.Ready.{held, Ready, Places};

use dutyfile::Shape;
use rules::Goal;
use solver::Solved;

// Appends to the lists of a file, for each row above k, a column of cost 1 that covers it alone.
fn append(
    found: Shape,
    k: usize,
    costs: &mut [i32; 256],
    lengths: &mut [u16; 256],
    numbers: &mut [u8; 4096],
)
    requires { Places found k }
    ensures costs_after { costs.new ≡ sets costs.old found.columns (replicate (found.rows - k) (pos 1)) }
    ensures lengths_after { lengths.new ≡ sets lengths.old found.columns (replicate (found.rows - k) 1) }
    ensures numbers_after { numbers.new ≡ sets numbers.old found.entries (from (found.rows - k) (suc k)) }
{
    let extra = found.rows - k;
    let end = found.columns + extra;
    costs[found.columns..end].fill(1);
    lengths[found.columns..end].fill(1);
    for i in 0..extra {
        numbers[found.entries + i] = (k + 1 + i) as u8;
    }
}

// Searches trial k of a file, by the lists of the file, within the whole node limit.
pub fn search_trial(
    found: Shape,
    costs: [i32; 256],
    lengths: [u16; 256],
    numbers: [u8; 4096],
    k: usize,
    limit: u32,
) -> Solved
    requires { Ready found costs lengths numbers limit × (1 ≤ k) × (k ≤ found.rows) }
    ensures { solved_answer (found.columns + (found.rows - k)) result ≡ trial (held found costs lengths numbers) limit k }
{
    let mut all_costs = costs;
    let mut all_lengths = lengths;
    let mut all_numbers = numbers;
    append(found, k, &mut all_costs, &mut all_lengths, &mut all_numbers);
    let extra = found.rows - k;
    let columns = found.columns + extra;
    let entries = found.entries + extra;
    let mut matrix = matrix::no_cells();
    lists::fill_matrix(
        found.rows,
        &all_lengths[0..columns],
        &all_numbers[0..entries],
        &mut matrix,
    );
    let edition = found.edition;
    let raised = raising::raise_all(edition, &all_costs[0..columns], &all_lengths[0..columns]);
    let first = root::root_node(&matrix, raised);
    solver::search_live(Goal::Sum, first, &matrix, &[], limit)
}
