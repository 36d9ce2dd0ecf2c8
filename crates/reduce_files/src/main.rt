// Writes duty files from lists, the paper's examples 1 to 4 and two larger ones, reduces them and prints what each comes to: the lower
// bound, the rows in the sequence used and the reduced costs. Then example 1 with lists that hold just enough places, or one too few.
#![tactic(auto)]

ghost use Rattle.std.specs.Prelude.{◌≡◌, ◌+◌, ◌<◌, ◌≤◌, length};

// std prints by a Display, which would assume two more contracts of C functions than the kit's io.
fn say(text: &[u8]) {
    io::write_all(1, text);
}

// A space and a number with its sign.
fn say_number(n: i64) {
    say(if n < 0 { b" -" } else { b" " });
    io::print_decimal(1, signed::magnitude(n));
}

// Reduces a file into lists that are lent to it.
fn show_reduced(file: &[u8], reduced: &mut [i32], order: &mut [u8]) {
    match reduce::reduce(file, reduced, order) {
        Ok(found) => {
            say(b" bound");
            say_number(found.bound);
            say(b" by rows");
            for row in order.iter().take(found.used) {
                say_number(i64::from(*row));
            }
            say(b"; costs");
            for cost in reduced.iter() {
                say_number(signed::wide(*cost));
            }
        }
        Err(why) => {
            say(b" refused");
            say_number(i64::from(u32::from(why)));
        }
    }
    say(b"\n");
}

// Reduces a file into lists of so many places.
fn show_file(file: &[u8], columns: usize, rows: usize)
    requires { (columns ≤ 256) × (rows ≤ 64) }
{
    let mut reduced = [0i32; 256];
    let mut order = [0u8; 64];
    show_reduced(file, &mut reduced[0..columns], &mut order[0..rows])
}

// Writes a file from lists, and reduces it into lists of so many places.
fn show_lists(
    rows: u16,
    costs: &[i32],
    lengths: &[u16],
    numbers: &[u8],
    columns: usize,
    places: usize,
)
    requires { (columns ≤ 256) × (places ≤ 64) }
{
    let mut file = [0u8; 6152];
    match writer::write(rows, costs, lengths, numbers, &mut file) {
        Ok(size) => show_file(&file[0..size], columns, places),
        Err(why) => {
            say(b" not written");
            say_number(i64::from(u32::from(why)));
        }
    }
}

fn example1(columns: usize, places: usize)
    requires { (columns ≤ 256) × (places ≤ 64) }
{
    let costs = [3, 7, 5, 8, 10, 4, 6, 9];
    let lengths = [1, 2, 1, 2, 2, 2, 2, 1];
    let numbers = [1, 1, 5, 2, 2, 5, 2, 3, 3, 5, 3, 4, 4];
    show_lists(5, &costs, &lengths, &numbers, columns, places)
}

fn example2() {
    let costs = [30, 49, 51, 52, 52, 55, 67, 67, 70, 81, 81, 83];
    let lengths = [3; 12];
    let numbers = [
        1, 2, 3, 1, 2, 4, 1, 2, 5, 1, 3, 5, 3, 4, 6, 2, 3, 6, 2, 4, 6, 1, 3, 4, 1, 4, 5, 2, 5, 6,
        3, 5, 6, 4, 5, 6,
    ];
    show_lists(6, &costs, &lengths, &numbers, 12, 6)
}

fn example3() {
    let costs = [
        1, 2, 3, 4, 5, 6, 7, 8, 9, 10, 11, 12, 13, 14, 15, 16, 17, 18, 19, 20,
    ];
    let lengths = [1, 2, 1, 2, 3, 1, 2, 2, 2, 2, 2, 1, 2, 2, 2, 1, 1, 1, 1, 1];
    let numbers = [
        1, 1, 2, 3, 4, 5, 1, 6, 7, 4, 1, 2, 4, 8, 3, 5, 3, 6, 3, 5, 4, 1, 5, 2, 8, 6, 8, 7, 8, 2,
        5, 7,
    ];
    show_lists(8, &costs, &lengths, &numbers, 20, 8)
}

fn example4() {
    let costs = [18, 22, 14, 36, 17, 14, 8, 24, 14, 7];
    let lengths = [2, 3, 2, 4, 2, 2, 1, 3, 2, 1];
    let numbers = [
        5, 6, 3, 5, 6, 1, 4, 2, 3, 4, 6, 1, 2, 2, 6, 5, 3, 4, 6, 3, 5, 4,
    ];
    show_lists(6, &costs, &lengths, &numbers, 10, 6)
}

// A body: at most so many rows from a first one on, a step apart, written from a place on. Gives the place after it.
fn put_body(
    numbers: &mut [u8],
    at: usize,
    rows: usize,
    first: usize,
    step: usize,
    most: usize,
) -> usize
    requires { (at ≤ length numbers.old) × (rows ≤ 64) × (first ≤ 64) × (step ≤ 7) × (most ≤ 6) }
    ensures { (at ≤ result) × (result ≤ length numbers.new) × (result ≤ at + most) }
{
    let end = numbers.len().min(at + most);
    let mut row = first;
    for place in at..end {
        if rows < row {
            return place;
        }
        numbers[place] = row as u8;
        row += step;
    }
    end
}

// Lists of so many rows and columns. Gives the number of row numbers.
fn grow(
    rows: usize,
    stride: usize,
    costs: &mut [i32],
    lengths: &mut [u16],
    numbers: &mut [u8],
) -> usize
    requires { (stride ≤ rows) × (rows ≤ 64) × (length costs.old ≤ 256) × (length lengths.old ≡ length costs.old) }
    ensures { result ≤ length numbers.new }
{
    let mut first = 1;
    let mut end = 0;
    for (j, (cost, size)) in costs.iter_mut().zip(lengths.iter_mut()).enumerate() {
        let next = put_body(numbers, end, rows, first, 1 + j % 7, 2 + j % 5);
        *cost = (100 + j * 7919 % 997) as i32;
        *size = (next - end) as u16;
        end = next;
        first += stride;
        if rows < first {
            first -= rows;
        }
    }
    end
}

// Shows such lists, in places that are lent for them.
fn show_grown_in(
    rows: usize,
    stride: usize,
    costs: &mut [i32],
    lengths: &mut [u16],
    numbers: &mut [u8],
)
    requires { (stride ≤ rows) × (rows ≤ 64) × (length costs.old ≤ 256) × (length lengths.old ≡ length costs.old) }
{
    let end = grow(rows, stride, costs, lengths, numbers);
    show_lists(
        rows as u16,
        costs,
        lengths,
        &numbers[0..end],
        costs.len(),
        rows,
    )
}

fn show_grown(rows: usize, columns: usize, stride: usize)
    requires { (stride ≤ rows) × (rows ≤ 64) × (columns ≤ 256) }
{
    let mut costs = [0i32; 256];
    let mut lengths = [0u16; 256];
    let mut numbers = [0u8; 4096];
    show_grown_in(
        rows,
        stride,
        &mut costs[0..columns],
        &mut lengths[0..columns],
        &mut numbers,
    )
}

fn main() {
    say(b"example 1:");
    example1(8, 5);
    say(b"example 2:");
    example2();
    say(b"example 3:");
    example3();
    say(b"example 4:");
    example4();
    say(b"64 by 256:");
    show_grown(64, 256, 11);
    say(b"40 by 120:");
    show_grown(40, 120, 7);
    say(b"example 1, one cost too few:");
    example1(7, 5);
    say(b"example 1, one row too few:");
    example1(8, 4);
    say(b"example 1, longer lists:");
    example1(10, 6);
    say(b"no file:");
    show_file(b"", 1, 1)
}
