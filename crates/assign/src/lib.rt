// The public call for crews onto vessels (02, P5): the table is tested, and the least total is found by the sets of used vessels.
#![tactic(auto)]

ghost use Rattle.std.specs.Prelude.{◌≡◌, ◌≤◌, get_or, length, Ok};
ghost use Rattle.refusals.specs.Refusals.{fault_of, accepted, front, filled};
ghost use Rattle.assignments.specs.Cheapest.{best};
ghost use Rattle.vessel_sets.specs.Table.{Sized};
ghost use Rattle.assign.specs.Answer.{assign_outcome, values_of, row_fits, costs_fit, sizes_fault, table_fault, assigning, vessel_list};
ghost use Rattle.assign.specs.Assigned.{Assigned};

use refusals::Refusal;

// 16, for so many crews and vessels.
fn check_sizes(crews: usize, vessels: usize) -> Result<(), Refusal>
    ensures { fault_of result ≡ sizes_fault crews vessels }
{
    if crews < 1 || crews > 16 || vessels > 16 || vessels < crews {
        return Err(Refusal::TableSize);
    }
    Ok(())
}

// Whether a crew's costs on the vessels given are at most 1,000,000.
fn row_fits(row: [u32; 16], vessels: usize) -> bool
    requires { vessels ≤ 16 }
    ensures { result ≡ row_fits (λ j. get_or row j 0) vessels }
{
    row[..vessels].iter().all(|&cost| cost <= 1000000)
}

// Whether those of all crews given are.
fn costs_fit(table: [[u32; 16]; 16], crews: usize, vessels: usize) -> bool
    requires { (crews ≤ 16) × (vessels ≤ 16) }
    ensures { result ≡ costs_fit table crews vessels }
{
    table[..crews].iter().all(|&row| row_fits(row, vessels))
}

// 16, then 17, then 10 for an answer list of so many places.
fn check_table(
    crews: usize,
    vessels: usize,
    table: [[u32; 16]; 16],
    places: usize,
) -> Result<(), Refusal>
    ensures { fault_of result ≡ table_fault table crews vessels places }
{
    check_sizes(crews, vessels)?;
    if !costs_fit(table, crews, vessels) {
        return Err(Refusal::TableCost);
    }
    if places < crews {
        return Err(Refusal::Room);
    }
    Ok(())
}

// The answer for a table that passes its tests, with the vessels at the front of the list if there is an assignment.
fn solve(crews: usize, vessels: usize, table: [[u32; 16]; 16], answer: &mut [u8]) -> Option<u32>
    requires { Sized table crews vessels × (crews ≤ length answer.old) }
    ensures result_value { assign_outcome (Ok result) ≡ accepted (values_of (best table crews vessels)) }
    ensures answer_after { answer.new ≡ front (vessel_list table crews vessels) answer.old }
{
    let mut least = vessel_sets::blank();
    vessel_sets::fill(table, crews, vessels, &mut least);
    let total = least[0];
    if total >= 1000000000 {
        return None;
    }
    vessel_sets::walk(table, crews, vessels, &least, answer);
    Some(total)
}

// Gives each crew a vessel of its own at the least total (02: the prices of a table, row by row, in which 0 marks a closed pairing): the
// total, with the vessel of each crew, counted from 1, at the front of the list, of equals the assignment whose vessel numbers come first;
// with no assignment, or refused, the list is as it was. Places outside the crews and vessels given do not count.
pub fn assign(
    crews: usize,
    vessels: usize,
    table: [[u32; 16]; 16],
    answer: &mut [u8],
) -> Result<Option<u32>, Refusal>
    ensures result_value { assign_outcome result ≡ assigning table crews vessels (length answer.old) }
    ensures answer_after { answer.new ≡ filled (assign_outcome result) (vessel_list table crews vessels) answer.old }
    ensures assigned { Assigned table crews vessels (assign_outcome result) answer.new }
{
    check_table(crews, vessels, table, answer.len())?;
    Ok(solve(crews, vessels, table, answer))
}
