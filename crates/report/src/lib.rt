// The search of a duty file, and the line that the program prints for it.
#![tactic(auto)]

ghost use Rattle.std.specs.Prelude.{◌≡◌, ◌≤◌, length};
ghost use Rattle.refusals.specs.Refusals.{front, filled};
ghost use Rattle.line.specs.Line.{line_of};
ghost use Rattle.search.specs.Searching.{searching, plan_list};
ghost use Rattle.report.specs.Program.{program_line};

// Searches a file within a node limit: the plan at the front of one list, the answer's line at the front of another. Gives the line's
// length.
fn search_line(file: &[u8], limit: u32, plan: &mut [u16], out: &mut [u8]) -> usize
    requires { 128 ≤ length out.old }
    ensures upper_bound { result ≤ 128 }
    ensures value { result ≡ length (line_of (searching file.now limit (length plan.old))) }
    ensures out_after { out.new ≡ front (line_of (searching file.now limit (length plan.old))) out.old }
    ensures plan_after { plan.new ≡ filled (searching file.now limit (length plan.old)) (plan_list file.now limit) plan.old }
{
    let answer = search::search(file, limit, &[], &[], &[], plan);
    line::put_line(out, answer)
}

// Prints the line of a file's search within a node limit. The plan is at the front of the list.
pub fn report(file: &[u8], limit: u32, plan: &mut [u16])
    ensures { plan.new ≡ filled (searching file.now limit (length plan.old)) (plan_list file.now limit) plan.old }
{
    let mut text = [0u8; 128];
    let n = search_line(file, limit, plan, &mut text);
    io::write_all(1, &text[0..n]);
}

// The line that the program prints for a file, at the front of a list. Gives its length.
pub fn program_line(file: &[u8], out: &mut [u8; 128]) -> usize
    ensures upper_bound { result ≤ 128 }
    ensures value { result ≡ length (program_line file.now) }
    ensures out_after { out.new ≡ front (program_line file.now) out.old }
{
    let mut plan = [0u16; 64];
    search_line(file, 1000000, &mut plan, out)
}
