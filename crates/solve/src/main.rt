// Reads a duty file from standard input and prints what its search comes to, on one line.
#![tactic(auto)]

ghost use Rattle.std.specs.Prelude.{◌≤◌};

use std::io::Read;

// Whether the input has ended.
fn is_at_end(rt: &HostRuntime) -> bool {
    let mut next = [0u8; 1];
    match rt.stdin().read(&mut next) {
        Ok(n) => n == 0,
        Err(_) => false,
    }
}

// Prints a text's first bytes.
fn print(text: [u8; 128], size: usize)
    requires { size ≤ 128 }
{
    io::write_all(1, &text[0..size]);
}

// Prints the line of a file.
fn show(file: &[u8]) {
    let mut text = [0u8; 128];
    let size = report::program_line(file, &mut text);
    print(text, size);
}

fn main(rt: HostRuntime) {
    let mut file = dutyfile::file_space();
    let got = io::read_full(0, &mut file);
    if got < file.len() {
        if !is_at_end(&rt) {
            io::write_all(2, b"solve: standard input cannot be read to its end\n");
            return;
        }
    }
    show(&file[..got]);
}
