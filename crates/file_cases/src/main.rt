// Reads duty files from standard input, each on a line as a name and its bytes in hexadecimal, writes back the lists of an accepted
// one by the writer of its edition, and prints what this comes to; then tries lists of other lengths, and offered plans.
#![tactic(auto)]

use dutyfile::Edition;
use refusals::Refusal;
use verify::Verdict;

// std prints by a Display, which would assume two more contracts of C functions than the kit's io.
fn say(text: &[u8]) {
    io::write_all(1, text);
}

// A space and a number.
fn say_number(n: u64) {
    say(b" ");
    io::print_decimal(1, n);
}

// A space and a cost with its sign.
fn say_cost(cost: i32) {
    say(if cost < 0 { b" -" } else { b" " });
    io::print_decimal(1, signed::magnitude(signed::wide(cost)));
}

fn say_refusal(why: Refusal) {
    say(b" refused");
    say_number(u64::from(u32::from(why)));
}

// Writes lists and compares the file with the one that they were read from.
fn write_back(
    file: &[u8],
    edition: Edition,
    rows: u16,
    costs: &[i32],
    lengths: &[u16],
    numbers: &[u8],
) {
    let mut out = [0u8; 6152];
    match roundtrip::write_by(edition, rows, costs, lengths, numbers, &mut out) {
        Ok(size) => {
            if endian::equal(&out[0..size], file) {
                say(b", written back the same")
            } else {
                say(b", written back differently")
            }
        }
        Err(why) => say_refusal(why),
    }
}

// Reads a file, and writes back what it holds.
fn show(file: &[u8]) {
    let mut costs = [0i32; 256];
    let mut lengths = [0u16; 256];
    let mut numbers = [0u8; 4096];
    match reader::read(file, &mut costs, &mut lengths, &mut numbers) {
        Ok(found) => {
            let m = found.rows;
            let n = found.columns;
            let t = found.entries;
            say(b" read");
            say_number(m as u64);
            say_number(n as u64);
            say_number(t as u64);
            write_back(
                file,
                found.edition,
                m as u16,
                &costs[0..n],
                &lengths[0..n],
                &numbers[0..t],
            )
        }
        Err(why) => say_refusal(why),
    }
}

fn show_line(name: &[u8], text: &[u8]) {
    let mut file = dutyfile::file_space();
    let n = hexadecimal::decode(text, &mut file);
    say(name);
    show(&file[0..n]);
    say(b"\n");
}

// No split into lines: a line without a space runs on to the next one that has one.
fn show_lines(s: &[u8]) {
    let mut at = 0;
    while at < s.len() {
        let space = hexadecimal::find(s, at, b' ');
        let end = hexadecimal::find(s, space, b'\n');
        show_line(&s[at..space], &s[space..end]);
        at = end + 1;
    }
}

fn show_input() {
    let mut input = io::large_buffer();
    let got = io::read_full(0, &mut input);
    show_lines(&input[..got]);
}

// Two columns, {1, 2} at 3 and {1} at 4, into lists of these numbers of places; then what the lists hold.
fn read_short(costs: &mut [i32], lengths: &mut [u16], rows: &mut [u8]) {
    let file =
        b"SPP1\x02\x00\x02\x00\x03\x00\x00\x00\x18\x00\x02\x00\x04\x00\x00\x00\x1a\x00\x01\x00\x01\x02\x01";
    say(b"lists of");
    say_number(costs.len() as u64);
    say_number(lengths.len() as u64);
    say_number(rows.len() as u64);
    match reader::read(file, costs, lengths, rows) {
        Ok(_) => say(b" read"),
        Err(why) => say_refusal(why),
    }
}

fn read_with(costs: usize, lengths: usize, rows: usize) {
    if costs > 4 || lengths > 4 || rows > 4 {
        return;
    }
    let mut c = [7i32; 4];
    let mut l = [7u16; 4];
    let mut r = [7u8; 4];
    read_short(&mut c[0..costs], &mut l[0..lengths], &mut r[0..rows]);
    say(b"; then");
    for cost in &c[0..3] {
        say_cost(*cost);
    }
    say(b",");
    for length in &l[0..3] {
        say_number(u64::from(*length));
    }
    say(b",");
    for row in &r {
        say_number(u64::from(*row));
    }
    say(b"\n");
}

// Writes lists into a buffer of some places, and prints the answer with the buffer's first and last byte.
fn write_with(
    name: &[u8],
    rows: u16,
    costs: &[i32],
    lengths: &[u16],
    numbers: &[u8],
    places: usize,
) {
    if places > 32 {
        return;
    }
    let mut out = [7u8; 32];
    say(b"write, ");
    say(name);
    match writer::write(rows, costs, lengths, numbers, &mut out[0..places]) {
        Ok(size) => {
            say(b" written");
            say_number(size as u64);
        }
        Err(why) => say_refusal(why),
    }
    say(b"; buffer");
    say_number(u64::from(out[0]));
    say_number(u64::from(out[26]));
    say_number(u64::from(out[27]));
    say(b"\n");
}

fn write_counts() {
    write_with(b"no rows", 0, &[3, 4], &[2, 1], &[1, 2, 1], 32);
    write_with(b"65 rows", 65, &[3, 4], &[2, 1], &[1, 2, 1], 32);
    write_with(b"no columns", 2, &[], &[], &[], 32);
    let name = b"one length for two costs";
    write_with(name, 2, &[3, 4], &[2], &[1, 2, 1], 32)
}

fn write_columns() {
    write_with(b"cost 0", 2, &[0, 4], &[2, 1], &[1, 2, 1], 32);
    write_with(b"cost 1000001", 2, &[3, 1000001], &[2, 1], &[1, 2, 1], 32);
    write_with(b"length 0", 2, &[3, 4], &[2, 0], &[1, 2, 1], 32);
    write_with(b"length above m", 2, &[3, 4], &[3, 1], &[1, 2, 1], 32)
}

fn write_numbers() {
    write_with(b"a row number too few", 2, &[3, 4], &[2, 1], &[1, 2], 32);
    write_with(b"rows not rising", 2, &[3, 4], &[2, 1], &[2, 2, 1], 32);
    let name = b"cost and rows at fault";
    write_with(name, 2, &[3, 0], &[2, 1], &[2, 1, 1], 32)
}

fn write_rooms() {
    write_with(b"a place too few", 2, &[3, 4], &[2, 1], &[1, 2, 1], 26);
    write_with(b"exact room", 2, &[3, 4], &[2, 1], &[1, 2, 1], 27);
    write_with(b"more room", 2, &[3, 4], &[2, 1], &[1, 2, 1], 32)
}

// Offers columns of the file of 01 with {1, 2} at 9, {1} at 4 and {2} at 4.
fn offer(columns: &[u16]) {
    let file =
        b"SPP1\x02\x00\x03\x00\x09\x00\x00\x00\x20\x00\x02\x00\x04\x00\x00\x00\x22\x00\x01\x00\x04\x00\x00\x00\x23\x00\x01\x00\x01\x02\x01\x02";
    say(b"offered");
    for column in columns {
        say_number(u64::from(*column));
    }
    say(b":");
    match verify::check_plan(file, columns) {
        Ok(Verdict::Plan(cost)) => {
            say(b" plan");
            say_cost(cost);
        }
        Ok(Verdict::NotOnce(row, times)) => {
            say(b" row");
            say_number(row as u64);
            say(b" covered");
            say_number(u64::from(times));
        }
        Err(why) => say_refusal(why),
    }
    say(b"\n");
}

fn offers() {
    let offered: [&[u16]; 11] = [
        &[2, 3],
        &[1],
        &[],
        &[3],
        &[1, 2],
        &[1, 3],
        &[1, 2, 3],
        &[2, 2],
        &[3, 2],
        &[0],
        &[4],
    ];
    for columns in offered {
        offer(columns);
    }
}

fn main() {
    show_input();
    read_with(2, 2, 3);
    read_with(3, 4, 4);
    read_with(1, 2, 3);
    read_with(2, 1, 3);
    read_with(2, 2, 2);
    write_counts();
    write_columns();
    write_numbers();
    write_rooms();
    offers()
}
