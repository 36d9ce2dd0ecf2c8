// Duty files as text, for the test programs: lines of words that are parted by spaces, the last of which is a file in hexadecimal.
#![tactic(auto)]

ghost use Rattle.std.specs.Prelude.{◌≡◌, ◌≤◌, min, length};
ghost use Rattle.std.proofs.lemmas.List.Edits.{sets};
ghost use Rattle.hexadecimal.specs.Text.{digit_of, byte_of, decoded, place_of};

// The value of a hexadecimal digit, or 0.
#[tactic(auto, unfolding(crate::specs::Text::digit_of))]
fn digit(b: u8) -> u8
    ensures value { result ≡ digit_of b }
    ensures upper_bound { result ≤ 15 }
{
    match b {
        b'0'..=b'9' => b - b'0',
        b'a'..=b'f' => b - b'a' + 10,
        _ => 0,
    }
}

// The byte of two digits.
fn byte(high: u8, low: u8) -> u8
    ensures { result ≡ byte_of high low }
{
    digit(high) * 16 + digit(low)
}

// The bytes that a text has in hexadecimal from its second character on, as many as the buffer holds. Gives their number.
pub fn decode(text: &[u8], file: &mut [u8]) -> usize
    ensures value { result ≡ length (decoded text.now (length file.old)) }
    ensures file_after { file.new ≡ sets file.old 0 (decoded text.now (length file.old)) }
    ensures upper_bound { result ≤ length file.new }
{
    let n = file.len().min(text.len().saturating_sub(1) / 2);
    for k in 0..n {
        file[k] = byte(text[2 * k + 1], text[2 * k + 2]);
    }
    n
}

// The first place of a byte, from a place on, or the end.
pub fn find(s: &[u8], from: usize, b: u8) -> usize
    ensures value { result ≡ place_of s.now from b }
    ensures lower_bound { (min from (length s.now) ≤ result) × (result ≤ length s.now) }
{
    for i in from..s.len() {
        if s[i] == b {
            return i;
        }
    }
    s.len()
}
