// A file read as the list of its matrix and a table of its costs in a search.
#![tactic(auto)]

ghost use Rattle.std.specs.Prelude.{◌≡◌, pos, length, replicate, Ok, Err};
ghost use Rattle.refusals.specs.Refusals.{unless, outcome, front, filled};
ghost use Rattle.refusals.specs.declared.Refusal.{Refusal};
ghost use Rattle.dutyfile.specs.declared.Shape.{Shape};
ghost use Rattle.dutyfile.specs.File.{parse, raised_all, instance, shape};
ghost use Rattle.dutyfile.specs.Faults.{file_fault};
ghost use Rattle.matrix.specs.Stated.{stated, Statable, Holds};
ghost use Rattle.raising.specs.Priced.{AllPriced};
ghost use Rattle.lists.specs.Places.{Places};
ghost use Rattle.lists.specs.Loaded.{Loaded};

use dutyfile::{Edition, Shape};
use refusals::Refusal;

// Places for n costs in the file, n body lengths and t row numbers.
pub fn no_prices() -> [i32; 256]
    ensures { result ≡ replicate 256 (pos 0) }
{
    [0i32; 256]
}

pub fn no_lengths() -> [u16; 256]
    ensures { result ≡ replicate 256 0 }
{
    [0u16; 256]
}

pub fn no_numbers() -> [u8; 4096]
    ensures { result ≡ replicate 4096 0 }
{
    [0u8; 4096]
}

// Reads a file into such places, which have room for every file: it is refused by its own tests alone.
pub fn read_lists(
    file: &[u8],
    costs: &mut [i32],
    lengths: &mut [u16],
    numbers: &mut [u8],
) -> Result<Shape, Refusal>
    requires { Places costs.old lengths.old numbers.old }
    ensures result_value { outcome result ≡ unless (file_fault file.now) (shape file.now) }
    ensures costs_after { costs.new ≡ filled (outcome result) (parse file.now).costs costs.old }
    ensures lengths_after { lengths.new ≡ filled (outcome result) (parse file.now).lengths lengths.old }
    ensures numbers_after { numbers.new ≡ filled (outcome result) (parse file.now).numbers numbers.old }
{
    reader::read(file, costs, lengths, numbers)
}

// Builds the list that keeps the matrix that lists state, in a place for it.
pub fn fill_matrix(rows: usize, lengths: &[u16], numbers: &[u8], matrix: &mut [u16; 8516])
    requires { Statable rows lengths.now numbers.now }
    ensures matrix_len { length matrix.new ≡ 8516 }
    ensures holds { Holds matrix.new (stated rows lengths.now numbers.now) }
{
    *matrix = matrix::matrix_list(rows, lengths, numbers);
}

// Puts the costs of a search into places for them, raised from those in the file.
fn fill_costs(edition: Edition, prices: &[i32], lengths: &[u16], costs: &mut [u32; 256])
    requires { AllPriced edition prices.now lengths.now }
    ensures { costs.new ≡ front (raised_all edition prices.now lengths.now) (replicate 256 0) }
{
    *costs = raising::raise_all(edition, prices, lengths);
}

// Reads a file: the list of its matrix, and its costs in a search; or a refusal, with both as they were.
pub fn read_matrix(
    file: &[u8],
    matrix: &mut [u16; 8516],
    costs: &mut [u32; 256],
) -> Result<Shape, Refusal>
    requires { costs.old ≡ replicate 256 0 }
    ensures result_value { outcome result ≡ unless (file_fault file.now) (shape file.now) }
    ensures costs_after { costs.new ≡ filled (outcome result) (instance (parse file.now)).costs costs.old }
    ensures matrix_unchanged { (why : Refusal) → result ≡ Err why → matrix.new ≡ matrix.old }
    ensures loaded { (found : Shape) → result ≡ Ok found → Loaded file.now found matrix.new costs.new }
{
    let mut prices = no_prices();
    let mut lengths = no_lengths();
    let mut numbers = no_numbers();
    let found = read_lists(file, &mut prices, &mut lengths, &mut numbers)?;
    let columns = found.columns;
    let entries = found.entries;
    fill_matrix(
        found.rows,
        &lengths[0..columns],
        &numbers[0..entries],
        matrix,
    );
    fill_costs(
        found.edition,
        &prices[0..columns],
        &lengths[0..columns],
        costs,
    );
    Ok(found)
}
