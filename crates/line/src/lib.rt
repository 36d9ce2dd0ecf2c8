// The line that the program prints for an answer, as text in a buffer.
#![tactic(auto)]

ghost use Rattle.std.specs.Prelude.{[], ◌∷◌, ◌+◌, ◌≤◌, pos, length};
ghost use Rattle.answer.specs.Answer.{search_outcome};
ghost use Rattle.line.specs.Line.{decimal, field, fields, words_of, line_of};
ghost use Rattle.line.specs.Put.{Put};

use answer::{Found, Halted, SearchAnswer};
use refusals::Refusal;

// The digits of a number, from a place on. Gives the place after them.
// Into a lent buffer, and not by `format!`: no heap.
fn put_digits(out: &mut [u8], at: usize, n: u64) -> usize
    requires { at + 20 ≤ length out.old }
    ensures upper_bound { result ≤ at + 20 }
    ensures put { Put out.old out.new at result (decimal 20 n) }
{
    let mut digits = [0u8; 20];
    let k = io::decimal(n, &mut digits);
    endian::put(out, at, &digits[..k]);
    at + k
}

// A space and a number, from a place on. Gives the place after them.
fn put_number(out: &mut [u8], at: usize, n: u64) -> usize
    requires { at + 21 ≤ length out.old }
    ensures upper_bound { result ≤ at + 21 }
    ensures put { Put out.old out.new at result (field (pos n)) }
{
    endian::put(out, at, b" ");
    put_digits(out, at + 1, n)
}

// A space and a number with its sign, from a place on. Gives the place after them.
fn put_signed(out: &mut [u8], at: usize, z: i64) -> usize
    requires { at + 22 ≤ length out.old }
    ensures upper_bound { result ≤ at + 22 }
    ensures put { Put out.old out.new at result (field z) }
{
    let n = signed::magnitude(z);
    if z < 0 {
        endian::put(out, at, b" -");
        return put_digits(out, at + 2, n);
    }
    put_number(out, at, n)
}

// Price, root floor, nodes and duties.
fn put_found(out: &mut [u8], at: usize, found: Found) -> usize
    requires { at + 86 ≤ length out.old }
    ensures upper_bound { result ≤ at + 86 }
    ensures put { Put out.old out.new at result (fields (found.cost ∷ found.bound ∷ pos found.nodes ∷ pos found.columns ∷ [])) }
{
    let floor = put_signed(out, at, found.cost);
    let nodes = put_signed(out, floor, found.bound);
    let duties = put_number(out, nodes, u64::from(found.nodes));
    put_number(out, duties, found.columns as u64)
}

// Root floor and nodes, and no duties.
fn put_halted(out: &mut [u8], at: usize, halted: Halted) -> usize
    requires { at + 64 ≤ length out.old }
    ensures upper_bound { result ≤ at + 64 }
    ensures put { Put out.old out.new at result (fields (halted.bound ∷ pos halted.nodes ∷ pos 0 ∷ [])) }
{
    let nodes = put_signed(out, at, halted.bound);
    let duties = put_number(out, nodes, u64::from(halted.nodes));
    put_number(out, duties, 0)
}

// The answer's word and numbers, at the front.
fn put_answer(out: &mut [u8], answer: Result<SearchAnswer, Refusal>) -> usize
    requires { 128 ≤ length out.old }
    ensures upper_bound { result ≤ 127 }
    ensures put { Put out.old out.new 0 result (words_of (search_outcome answer)) }
{
    match answer {
        Ok(SearchAnswer::Best(found)) => {
            endian::put(out, 0, b"best");
            put_found(out, 4, found)
        }
        Ok(SearchAnswer::None(nodes)) => {
            endian::put(out, 0, b"none");
            put_number(out, 4, u64::from(nodes))
        }
        Ok(SearchAnswer::Stopped(halted)) => {
            endian::put(out, 0, b"stopped -");
            put_halted(out, 9, halted)
        }
        Ok(SearchAnswer::StoppedWith(found)) => {
            endian::put(out, 0, b"stopped");
            put_found(out, 7, found)
        }
        Err(why) => {
            endian::put(out, 0, b"refused");
            put_number(out, 7, u64::from(u32::from(why)))
        }
    }
}

// The answer's line, at the front. Gives its length.
pub fn put_line(out: &mut [u8], answer: Result<SearchAnswer, Refusal>) -> usize
    requires { 128 ≤ length out.old }
    ensures upper_bound { result ≤ 128 }
    ensures put { Put out.old out.new 0 result (line_of (search_outcome answer)) }
{
    let end = put_answer(out, answer);
    endian::put(out, end, b"\n");
    end + 1
}
