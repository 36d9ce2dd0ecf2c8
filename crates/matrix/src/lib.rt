// The list that keeps a matrix, built once from the lists of a file.
#![tactic(auto)]

ghost use Rattle.std.specs.Prelude.{◌≡◌, ◌+◌, ◌≤◌, ◌<◌, length};
ghost use Rattle.std.proofs.lemmas.List.Edits.{sets};
ghost use Rattle.node.specs.Stored.{Body};
ghost use Rattle.dutyfile.specs.File.{bodies};
ghost use Rattle.matrix.specs.Stated.{stated, Statable, Holds};
ghost use Rattle.matrix.specs.Build.{put, marked, all_marked, marks_of, all_marks, Room, RowRoom};

// Places for a matrix.
pub fn no_cells() -> [u16; 8516]
    ensures { length result ≡ 8516 }
{
    [0u16; 8516]
}

// Puts a body into the list.
fn put_body(matrix: &mut [u16; 8516], at: usize, body: &[u8])
    requires { at + length body.now ≤ 8516 }
    ensures { matrix.new ≡ sets matrix.old at body.now }
{
    for (k, &row) in body.iter().enumerate() {
        matrix[at + k] = row as u16;
    }
}

// Marks column j at the rows of its body.
fn mark_column(cover: &mut [u8; 16384], body: &[u8], j: usize)
    requires { (j < 256) × Body body.now }
    ensures { cover.new ≡ marked j body.now cover.old }
{
    for &row in body {
        cover[256 * (row as usize - 1) + j] = 1;
    }
}

// Puts the bodies and where they start into the list, and marks which row is covered by which column.
fn put_bodies(matrix: &mut [u16; 8516], cover: &mut [u8; 16384], lengths: &[u16], numbers: &[u8])
    requires { Room lengths.now numbers.now }
    ensures matrix_after { matrix.new ≡ put matrix.old 67 324 (bodies lengths.now numbers.now) }
    ensures cover_after { cover.new ≡ all_marked 0 (bodies lengths.now numbers.now) cover.old }
{
    let mut start = 0;
    for (j, &length) in lengths.iter().enumerate() {
        let at = 324 + start;
        matrix[67 + j] = at as u16;
        let end = start + length as usize;
        let body = &numbers[start..end];
        put_body(matrix, at, body);
        mark_column(cover, body, j);
        start = end;
    }
    matrix[67 + lengths.len()] = (324 + start) as u16;
}

// Puts the columns that are marked in a row into the list, from a place on, and gives the place after them.
fn put_row(
    matrix: &mut [u16; 8516],
    at: usize,
    cover: &[u8; 16384],
    columns: usize,
    row: usize,
) -> usize
    requires { (columns ≤ 256) × (row < 64) × (at + length (marks_of cover.now columns row) ≤ 8516) }
    ensures value { result ≡ at + length (marks_of cover.now columns row) }
    ensures matrix_after { matrix.new ≡ sets matrix.old at (marks_of cover.now columns row) }
{
    let mut end = at;
    for j in 0..columns {
        if cover[256 * row + j] == 1 {
            matrix[end] = j as u16;
            end += 1;
        }
    }
    end
}

// Puts the marked columns of all rows, and where each row starts, into the list.
fn put_rows(matrix: &mut [u16; 8516], at: usize, cover: &[u8; 16384], columns: usize, rows: usize)
    requires { RowRoom cover.now columns rows at }
    ensures { matrix.new ≡ put matrix.old 2 at (all_marks cover.now columns rows) }
{
    let mut end = at;
    for i in 0..rows {
        matrix[2 + i] = end as u16;
        end = put_row(matrix, end, cover, columns, i);
    }
    matrix[2 + rows] = end as u16;
}

// The list that keeps the matrix that lists state.
pub fn matrix_list(rows: usize, lengths: &[u16], numbers: &[u8]) -> [u16; 8516]
    requires { Statable rows lengths.now numbers.now }
    ensures { Holds result (stated rows lengths.now numbers.now) }
{
    let columns = lengths.len();
    let end = 324 + numbers.len();
    let mut matrix = no_cells();
    let mut cover = [0u8; 16384];
    matrix[0] = rows as u16;
    matrix[1] = columns as u16;
    put_bodies(&mut matrix, &mut cover, lengths, numbers);
    put_rows(&mut matrix, end, &cover, columns, rows);
    matrix
}
