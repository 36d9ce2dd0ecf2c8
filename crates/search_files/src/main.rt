// Reads duty files from standard input, each on a line as a name, a node limit and its bytes in hexadecimal, and prints the line of its
// search as the program does, and the columns of the plan that is shown.
#![tactic(auto)]

// std prints by a Display, which would assume two more contracts of C functions than the kit's io.
fn say(text: &[u8]) {
    io::write_all(1, text);
}

// The columns at the front of a list that was lent with 0 at each place.
fn say_plan(plan: &[u16]) {
    for &column in plan {
        if column == 0 {
            return;
        }
        say(b" ");
        io::print_decimal(1, u64::from(column));
    }
}

fn show_file(file: &[u8], limit: u32) {
    let mut plan = [0u16; 64];
    report::report(file, limit, &mut plan);
    say(b"  duties");
    say_plan(&plan);
    say(b"\n");
}

// The number that a text has in decimal from its second character on. No parse: any character counts as a digit, by its last four bits, and
// the number ends once it is 100,000,000 or more.
fn number(text: &[u8]) -> u32 {
    let mut n = 0;
    for character in text.iter().skip(1) {
        if n >= 100000000 {
            return n;
        }
        n = n * 10 + u32::from(character % 16);
    }
    n
}

fn show_line(name: &[u8], limit: &[u8], text: &[u8]) {
    let mut file = dutyfile::file_space();
    let n = hexadecimal::decode(text, &mut file);
    say(name);
    say(limit);
    say(b": ");
    show_file(&file[0..n], number(limit));
}

// No split into lines: a line with fewer than two spaces runs on into the next.
fn show_lines(s: &[u8]) {
    let mut at = 0;
    while at < s.len() {
        let limit = hexadecimal::find(s, at, b' ');
        let text = hexadecimal::find(s, limit + 1, b' ');
        let end = hexadecimal::find(s, text, b'\n');
        show_line(&s[at..limit], &s[limit..text], &s[text..end]);
        at = end + 1;
    }
}

fn main() {
    let mut input = io::large_buffer();
    let got = io::read_full(0, &mut input);
    show_lines(&input[..got]);
}
