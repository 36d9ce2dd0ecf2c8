// The duty file's entries, and the tests that reader and writer share.
#![tactic(auto)]

ghost use Rattle.std.specs.Prelude.{◌≡◌, ℕ, ◌+◌, ◌*◌, ◌≤◌, length, map, take, drop, replicate};
ghost use Rattle.endian.specs.Bytes.{same};
ghost use Rattle.refusals.specs.Refusals.{fault_of};
ghost use Rattle.dutyfile.specs.File.{magic, edition_in, rows_in, columns_in, entry_of, bodies_at};
ghost use Rattle.dutyfile.specs.Faults.{least_cost, is_cost, column_fault, counts_fault, entry_fault, rising};

use refusals::Refusal;

// What a file begins with: SPP1, or SPP2 (02, P10), whose costs may be 0 and below.
#[derive(Clone, Copy)]
pub enum Edition {
    Spp1 = 1,
    Spp2 = 2,
}

// A contents entry.
#[derive(Clone, Copy)]
pub struct Entry {
    // The 32 bits of 01's price.
    pub cost: u32,
    // Where the body starts, from the file's first byte.
    pub start: u16,
    // How many row numbers the body has.
    pub size: u16,
}

// What an accepted file holds: its edition, and 01's m, n and t.
#[derive(Clone, Copy)]
pub struct Shape {
    pub edition: Edition,
    pub rows: usize,
    pub columns: usize,
    pub entries: usize,
}

// 6,153 places for a file, one more than the longest has: enough to see that a file is too long.
pub fn file_space() -> [u8; 6153]
    ensures { result ≡ replicate 6153 0 }
{
    [0u8; 6153]
}

// Whether a file begins with SPP1, or with SPP2.
pub fn begins(file: &[u8], edition: Edition) -> bool
    ensures { result ≡ same (take 4 file.now) (magic edition) }
{
    let mark = &file[..file.len().min(4)];
    match edition {
        Edition::Spp1 => endian::equal(mark, b"SPP1"),
        Edition::Spp2 => endian::equal(mark, b"SPP2"),
    }
}

// The edition of a file that begins with either.
pub fn edition_in(file: &[u8]) -> Edition
    ensures { result ≡ edition_in file.now }
{
    if begins(file, Edition::Spp2) {
        return Edition::Spp2;
    }
    Edition::Spp1
}

// The number of rows, 01's m.
pub fn row_count(file: &[u8]) -> usize
    requires { 8 ≤ length file.now }
    ensures { result ≡ rows_in file.now }
{
    endian::get16(file, 4) as usize
}

// The number of columns, 01's n.
pub fn column_count(file: &[u8]) -> usize
    requires { 8 ≤ length file.now }
    ensures { result ≡ columns_in file.now }
{
    endian::get16(file, 6) as usize
}

// Entry j of a file.
pub fn entry_at(file: &[u8], j: usize) -> Entry
    requires { (j ≤ 255) × (16 + 8 * j ≤ length file.now) }
    ensures { result ≡ entry_of (drop (bodies_at j) file.now) }
{
    let at = 8 + 8 * j;
    Entry {
        cost: endian::get32(file, at),
        start: endian::get16(file, at + 4),
        size: endian::get16(file, at + 6),
    }
}

// Test 2: the numbers of rows and columns.
pub fn check_counts(rows: usize, columns: usize) -> Result<(), Refusal>
    ensures { fault_of result ≡ counts_fault rows columns }
{
    if rows < 1 {
        return Err(Refusal::Counts);
    }
    if 64 < rows {
        return Err(Refusal::Counts);
    }
    if columns < 1 {
        return Err(Refusal::Counts);
    }
    if 256 < columns {
        return Err(Refusal::Counts);
    }
    Ok(())
}

// The least cost of a column.
fn least_cost(edition: Edition) -> i32
    ensures { result ≡ least_cost edition }
{
    match edition {
        Edition::Spp1 => 1,
        Edition::Spp2 => -1000000,
    }
}

// Whether a number is a cost.
fn is_cost(edition: Edition, cost: i32) -> bool
    ensures { result ≡ is_cost edition cost }
{
    if cost < least_cost(edition) {
        return false;
    }
    cost <= 1000000
}

// Tests 4, 5 and 6: a column of `size` rows, after columns with `total` rows in all.
pub fn check_column(
    edition: Edition,
    rows: usize,
    total: usize,
    cost: i32,
    size: u16,
) -> Result<(), Refusal>
    requires { total ≤ 4096 }
    ensures { fault_of result ≡ column_fault edition rows total cost size }
{
    if !is_cost(edition, cost) {
        return Err(Refusal::Cost);
    }
    let size = size as usize;
    if size < 1 {
        return Err(Refusal::Length);
    }
    if rows < size {
        return Err(Refusal::Length);
    }
    if 4096 < total + size {
        return Err(Refusal::Total);
    }
    Ok(())
}

// Tests 4, 5, 6 and 7: an entry of a file with so many columns, after bodies of `total` rows.
pub fn check_entry(
    edition: Edition,
    rows: usize,
    columns: usize,
    total: usize,
    e: Entry,
) -> Result<(), Refusal>
    requires { (columns ≤ 256) × (total ≤ 4096) }
    ensures { fault_of result ≡ entry_fault edition rows columns total e }
{
    let cost = signed::from_bits(e.cost);
    check_column(edition, rows, total, cost, e.size)?;
    if e.start as usize != 8 + 8 * columns + total {
        return Err(Refusal::Start);
    }
    Ok(())
}

// A number as it stands in a list: that of a row in a byte, that of a column in two.
pub trait Numbered: Copy {
    ghost value: { Self → ℕ };

    // The number, as a place is counted.
    fn value(self) -> usize
        ensures { result ≡ value self };
}

impl Numbered for u8 {
    ghost value = { λ x. x };

    fn value(self) -> usize {
        self as usize
    }
}

impl Numbered for u16 {
    ghost value = { λ x. x };

    fn value(self) -> usize {
        self as usize
    }
}

// Whether numbers rise within 1 to `most`: test 9 of a body's row numbers, test 12, and 02's tests 14 and 15 of numbers of columns.
pub fn rises<T: Numbered>(numbers: &[T], most: usize) -> bool
    ensures { result ≡ rising 0 most (map T.value numbers.now) }
{
    let mut last = 0;
    for &number in numbers {
        let next = number.value();
        if next <= last {
            return false;
        }
        if most < next {
            return false;
        }
        last = next;
    }
    true
}
