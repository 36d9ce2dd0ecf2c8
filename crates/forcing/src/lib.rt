// Forcing (01, Forcing): what a row asks by its free columns, and what the open rows ask together.
#![tactic(auto)]

ghost use Rattle.std.specs.Prelude.{◌≡◌, [], length};
ghost use Rattle.node.specs.Lists.{first};
ghost use Rattle.node.specs.View.{view};
ghost use Rattle.node.specs.Stored.{matrix_in, Kept, HasRow, Columns, row_columns};
ghost use Rattle.rules.specs.Force.{asked};
ghost use Rattle.forcing.specs.Rows.{free_in, asks_by, sooner};

use node::{row_count, row_part};
use rules::Asked;

// How many of some columns are free.
fn free_count(column: &[u8; 256], columns: &[u16]) -> usize
    requires { Columns columns.now }
    ensures { result ≡ length (free_in column.now columns.now) }
{
    let mut n = 0;
    for &j in columns {
        if column[j as usize] == 1 {
            n += 1;
        }
    }
    n
}

// The first of some columns that is free, and 0 where none is.
fn first_free(column: &[u8; 256], columns: &[u16]) -> usize
    requires { Columns columns.now }
    ensures { result ≡ first (free_in column.now columns.now) }
{
    for &j in columns {
        let found = j as usize;
        if column[found] == 1 {
            return found;
        }
    }
    0
}

// What a row with these columns asks (01: no free duty, exactly one, or two and more).
fn columns_ask(column: &[u8; 256], columns: &[u16]) -> Asked
    requires { Columns columns.now }
    ensures { result ≡ asks_by (free_in column.now columns.now) }
{
    let n = free_count(column, columns);
    match n {
        0 => Asked::Dead,
        1 => {
            let j = first_free(column, columns);
            Asked::Take(j)
        }
        2.. => Asked::Settled,
    }
}

// What row i of a matrix asks.
fn row_asks(column: &[u8; 256], matrix: &[u16], i: usize) -> Asked
    requires { HasRow matrix.now i }
    ensures { result ≡ asks_by (free_in column.now (row_columns (matrix_in matrix.now) i)) }
{
    let row = row_part(matrix, i);
    columns_ask(column, row)
}

// What the rows so far ask, and one more row.
fn sooner_of(a: Asked, b: Asked) -> Asked
    ensures { result ≡ sooner a b }
{
    match a {
        Asked::Dead => Asked::Dead,
        Asked::Take(j) => match b {
            Asked::Dead => Asked::Dead,
            Asked::Take(_) => Asked::Take(j),
            Asked::Settled => Asked::Take(j),
        },
        Asked::Settled => b,
    }
}

// What the open rows ask of a node with these marks, in one pass.
pub fn open_rows_ask<'a>(column: &'a [u8; 256], row: &'a [u8; 64], matrix: &[u16]) -> Asked
    requires { Kept matrix.now }
    ensures { result ≡ asked (matrix_in matrix.now) (view [] column.now row.now) }
{
    let rows = row_count(matrix);
    let mut found = Asked::Settled;
    for i in 0..rows {
        if row[i] == 1 {
            let next = row_asks(column, matrix, i);
            if let Asked::Dead = next {
                return Asked::Dead;
            }
            found = sooner_of(found, next);
        }
    }
    found
}
