// The numbers that tell how rows are covered, as the rows of one column are counted in or out (02, P7).
#![tactic(auto)]

ghost use Rattle.std.specs.Prelude.{◌≡◌, true};
ghost use Rattle.dutyfile.specs.Faults.{rising};
ghost use Rattle.counts.specs.Counts.{counts_of, off_by, rows_moved};

// By what the number of rows that are off changes as a row's count does.
fn off_change(old: u32, new: u32) -> u32
    ensures { result ≡ off_by old new }
{
    if old == 1 {
        return 1;
    }
    if new == 1 {
        return 4294967295;
    }
    0
}

// The counts of a body's rows change, each by the same number, and the number of rows that are off with them.
pub fn move_rows(body: &[u8], by: u32, covered: &mut [u32; 64], off: &mut u32)
    requires { rising 0 64 body.now ≡ true }
    ensures { counts_of covered.new off.new ≡ rows_moved by body.now (counts_of covered.old off.old) }
{
    for &row in body {
        let i = row as usize - 1;
        let old = covered[i];
        let new = old.wrapping_add(by);
        covered[i] = new;
        *off = off.wrapping_add(off_change(old, new));
    }
}
