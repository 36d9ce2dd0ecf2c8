// The costs that a search works with, raised from those in a file (02, P10).
#![tactic(auto)]

ghost use Rattle.std.specs.Prelude.{◌≡◌, ◌≤◌, length, replicate};
ghost use Rattle.refusals.specs.Refusals.{front};
ghost use Rattle.dutyfile.specs.File.{shift, raised, raised_all};
ghost use Rattle.raising.specs.Priced.{Priced, AllPriced};

use dutyfile::Edition;

// What is added for so many rows.
pub fn shift(edition: Edition, rows: usize) -> u32
    requires { rows ≤ 64 }
    ensures { result ≡ shift edition rows }
{
    match edition {
        Edition::Spp1 => 0,
        Edition::Spp2 => 1000000 * rows as u32,
    }
}

// The raised cost of a column of `size` rows.
fn raised(edition: Edition, cost: i32, size: usize) -> u32
    requires { Priced edition cost size }
    ensures { result ≡ raised edition cost size }
{
    shift(edition, size).wrapping_add_signed(cost)
}

// Places for the costs of a search, with all costs 0.
pub fn no_costs() -> [u32; 256]
    ensures { result ≡ replicate 256 0 }
{
    [0u32; 256]
}

// The raised costs of all columns, at the front of a table.
pub fn raise_all(edition: Edition, costs: &[i32], lengths: &[u16]) -> [u32; 256]
    requires { AllPriced edition costs.now lengths.now }
    ensures { result ≡ front (raised_all edition costs.now lengths.now) (replicate 256 0) }
{
    let mut table = no_costs();
    for j in 0..costs.len() {
        table[j] = raised(edition, costs[j], lengths[j] as usize);
    }
    table
}
