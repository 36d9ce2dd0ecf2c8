// The node that the code passes by value, and the steps that decide a column. The definitions are in specs/.
#![tactic(auto)]

ghost use Rattle.std.specs.Prelude.{◌≡◌, ◌+◌, ◌≤◌, ◌<◌, length};
ghost use Rattle.node.specs.Matrix.{width, body, span};
ghost use Rattle.node.specs.Node.{take, leave};
ghost use Rattle.node.specs.Stored.{part_at, matrix_in, Part, Kept, HasRow, HasColumn, HasBody, Columns, Body, row_columns};
ghost use Rattle.node.specs.Taking.{closed, all_dropped, rows_dropped};

// A node of the tree (01: its open sailings, free duties and present prices, its taken duties and its floor).
#[derive(Clone, Copy)]
pub struct Node {
    // The present cost of each column, 0 from the matrix's width on.
    pub cost: [u32; 256],
    // The mark of each column: 0 out, 1 free, 2 taken.
    pub column: [u8; 256],
    // The mark of each row: 0 closed, 1 open.
    pub row: [u8; 64],
    // The lower bound.
    pub bound: u32,
}

// How many rows a matrix has.
pub fn row_count(matrix: &[u16]) -> usize
    requires { Kept matrix.now }
    ensures { result ≡ (matrix_in matrix.now).rows }
{
    usize::from(matrix[0])
}

// How many columns a matrix has.
pub fn column_count(matrix: &[u16]) -> usize
    requires { Kept matrix.now }
    ensures { result ≡ width (matrix_in matrix.now) }
{
    usize::from(matrix[1])
}

// The part of a matrix that starts where place k says.
fn part(matrix: &[u16], k: usize) -> &[u16]
    requires { (k + 1 < length matrix.now) × Part matrix.now k }
    ensures { result.now ≡ part_at matrix.now k }
{
    let start = usize::from(matrix[k]);
    let end = usize::from(matrix[k + 1]);
    &matrix[start..end]
}

// The columns of row i.
pub fn row_part(matrix: &[u16], i: usize) -> &[u16]
    requires { HasRow matrix.now i }
    ensures { result.now ≡ row_columns (matrix_in matrix.now) i }
{
    part(matrix, 2 + i)
}

// The body of column j.
pub fn column_part(matrix: &[u16], j: usize) -> &[u16]
    requires { HasColumn matrix.now j }
    ensures { result.now ≡ body (matrix_in matrix.now) j }
{
    part(matrix, 67 + j)
}

// How many rows column j covers.
pub fn column_size(matrix: &[u16], j: usize) -> u32
    requires { HasColumn matrix.now j }
    ensures { result ≡ span (matrix_in matrix.now) j }
{
    column_part(matrix, j).len() as u32
}

// Closes the rows of a body.
fn close_rows(row: &mut [u8; 64], body: &[u16])
    requires { Body body.now }
    ensures { row.new ≡ closed body.now row.old }
{
    for &r in body {
        row[usize::from(r) - 1] = 0;
    }
}

// Marks the free ones of some columns as out.
fn drop_columns(column: &mut [u8; 256], columns: &[u16])
    requires { Columns columns.now }
    ensures { column.new ≡ all_dropped columns.now column.old }
{
    for &j in columns {
        let j = usize::from(j);
        if column[j] == 1 {
            column[j] = 0;
        }
    }
}

// Marks the free columns of the rows of a body as out.
fn drop_rows(column: &mut [u8; 256], body: &[u16], matrix: &[u16])
    requires { HasBody matrix.now body.now }
    ensures { column.new ≡ rows_dropped (matrix_in matrix.now) body.now column.old }
{
    for &r in body {
        drop_columns(column, row_part(matrix, usize::from(r) - 1));
    }
}

impl Node {
    // Column j taken (01: the step of forcing a duty), with the bound from there on: its rows close, and every column that
    // covers one of them is no longer free.
    pub fn take(mut self, j: usize, bound: u32, matrix: &[u16]) -> Node
        requires { HasColumn matrix.now j }
        ensures { result ≡ take (matrix_in matrix.now) self j bound }
    {
        let body = column_part(matrix, j);
        close_rows(&mut self.row, body);
        drop_rows(&mut self.column, body, matrix);
        self.column[j] = 2;
        self.bound = bound;
        self
    }

    // Column j no longer free.
    pub fn leave(mut self, j: usize) -> Node
        requires { j < 256 }
        ensures { result ≡ leave self j }
    {
        self.column[j] = 0;
        self
    }
}
