// A file's bytes, written at the front of a buffer from lists that pass their tests.
#![tactic(auto)]

ghost use Rattle.std.specs.Prelude.{◌≡◌, ◌+◌, ◌*◌, ◌≤◌, ◌<◌, length};
ghost use Rattle.std.proofs.lemmas.List.Edits.{sets};
ghost use Rattle.refusals.specs.Refusals.{fine, front};
ghost use Rattle.dutyfile.specs.File.{edition_digit, bodies_at, header, entry_bytes, contents, render, sum};
ghost use Rattle.dutyfile.specs.Faults.{lists_fault};
ghost use Rattle.render.specs.Lists.{lists_of};

use dutyfile::Edition;

// What a file is written from: the edition, the number of rows, and the lists.
#[derive(Clone, Copy)]
pub struct Lists<'a> {
    pub edition: Edition,
    pub rows: u16,
    pub costs: &'a [i32],
    pub lengths: &'a [u16],
    pub numbers: &'a [u8],
}

// Entry j of the contents.
fn put_entry(out: &mut [u8], j: usize, cost: i32, start: u16, size: u16)
    requires { (j < 256) × (16 + 8 * j ≤ length out.old) }
    ensures { out.new ≡ sets out.old (bodies_at j) (entry_bytes cost start size) }
{
    let at = 8 + 8 * j;
    endian::put32(out, at, signed::to_bits(cost));
    endian::put16(out, at + 4, start);
    endian::put16(out, at + 6, size);
}

// The contents, with the first body after them.
fn put_contents(out: &mut [u8], costs: &[i32], lengths: &[u16])
    requires costs_len_bound { (length costs.now ≤ 256) × (length lengths.now ≡ length costs.now) }
    requires lengths_bound { sum lengths.now ≤ 4096 }
    requires costs_in_bounds { bodies_at (length costs.now) ≤ length out.old }
    ensures { out.new ≡ sets out.old 8 (contents (bodies_at (length costs.now)) costs.now lengths.now) }
{
    let mut start = 8 + 8 * costs.len();
    for (k, (&cost, &size)) in costs.iter().zip(lengths).enumerate() {
        put_entry(out, k, cost, start as u16, size);
        start += usize::from(size);
    }
}

// The last of the four bytes that a file begins with.
fn digit(edition: Edition) -> u8
    ensures { result ≡ edition_digit edition }
{
    match edition {
        Edition::Spp1 => b'1',
        Edition::Spp2 => b'2',
    }
}

// The first 8 bytes.
fn put_header(edition: Edition, out: &mut [u8], rows: u16, columns: u16)
    requires { 8 ≤ length out.old }
    ensures { out.new ≡ sets out.old 0 (header edition rows columns) }
{
    let magic = [b'S', b'P', b'P', digit(edition)];
    endian::put(out, 0, &magic);
    endian::put16(out, 4, rows);
    endian::put16(out, 6, columns);
}

// The whole file, at the front of the buffer.
pub fn put_file(given: &Lists<'_>, out: &mut [u8])
    requires lists_pass { lists_fault (lists_of given.now) ≡ fine }
    requires file_fits { length (render (lists_of given.now)) ≤ length out.old }
    ensures { out.new ≡ front (render (lists_of given.now)) out.old }
{
    let columns = given.costs.len();
    put_header(given.edition, out, given.rows, columns as u16);
    put_contents(out, given.costs, given.lengths);
    endian::put(out, 8 + 8 * columns, given.numbers);
}
