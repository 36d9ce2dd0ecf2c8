// The choice of the column to branch on.
#![tactic(auto)]

ghost use Rattle.std.specs.Prelude.{◌≡◌, []};
ghost use Rattle.node.specs.Lists.{keep};
ghost use Rattle.node.specs.Stored.{matrix_in, Kept, HasRow, HasColumn, Columns};
ghost use Rattle.node.specs.View.{view};
ghost use Rattle.candidates.specs.Row.{zero_in};
ghost use Rattle.columns.specs.Column.{only, InColumns, branch_column, column_precedes, column_of, best_column, Few};

use candidates::is_zero;
use node::{column_part, row_part};
use sharing::count_sharing;

// The one of some columns that is free and at cost 0, if just one is.
fn only_zero(cost: &[u32; 256], column: &[u8; 256], columns: &[u16]) -> Option<usize>
    requires { Columns columns.now }
    ensures { result ≡ only (keep (zero_in cost.now column.now) columns.now) }
{
    let mut found = None;
    for &j in columns {
        let j = usize::from(j);
        if is_zero(column[j], cost[j]) {
            if found.is_some() {
                return None;
            }
            found = Some(j);
        }
    }
    found
}

// What the choice of the column looks at in a column.
#[derive(Clone, Copy)]
pub struct BranchColumn {
    // How many free columns at cost 0 share a row with it, itself included (01: C).
    pub share: u32,
    // How many rows it covers (01: s).
    pub size: u32,
    // The column, from 0.
    pub column: usize,
}

// What the choice looks at in a column of a matrix.
fn column_statistics(
    cost: &[u32; 256],
    column: &[u8; 256],
    matrix: &[u16],
    j: usize,
) -> BranchColumn
    requires { HasColumn matrix.now j }
    ensures { result ≡ branch_column (matrix_in matrix.now) (view cost.now column.now []) j }
{
    let body = column_part(matrix, j);
    BranchColumn {
        share: count_sharing(cost, column, matrix, body),
        size: body.len() as u32,
        column: j,
    }
}

// Whether column a comes before column b: the lesser share / size, by products.
pub fn column_precedes(a: BranchColumn, b: BranchColumn) -> bool
    requires { Few a × Few b }
    ensures { result ≡ column_precedes a b }
{
    a.share * b.size < b.share * a.size
}

// The column to branch on among some columns. Where none of them is free and at cost 0 the size is 0, which no column has, as the
// definition no_column states.
fn column_in(cost: &[u32; 256], column: &[u8; 256], matrix: &[u16], columns: &[u16]) -> usize
    requires { Kept matrix.now × InColumns (matrix_in matrix.now) columns.now }
    ensures { result ≡ column_of (matrix_in matrix.now) cost.now column.now columns.now }
{
    let mut best = BranchColumn {
        share: 1,
        size: 0,
        column: 0,
    };
    for &j in columns {
        let j = usize::from(j);
        if is_zero(column[j], cost[j]) {
            let found = column_statistics(cost, column, matrix, j);
            if column_precedes(found, best) {
                best = found;
            }
        }
    }
    best.column
}

// The column to branch on, of the free columns of row i at cost 0, and 0 where there are none. Where there is just one it is
// that one, and nothing is counted.
pub fn branch_column<'a>(
    cost: &'a [u32; 256],
    column: &'a [u8; 256],
    matrix: &[u16],
    i: usize,
) -> usize
    requires { HasRow matrix.now i }
    ensures { result ≡ best_column (matrix_in matrix.now) (view cost.now column.now []) i }
{
    let row = row_part(matrix, i);
    match only_zero(cost, column, row) {
        Some(j) => j,
        None => column_in(cost, column, matrix, row),
    }
}
