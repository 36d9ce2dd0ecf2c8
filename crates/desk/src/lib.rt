// The running plan on the desk (02, P7): columns are added and removed one by one, and what they cover and cost is kept.
#![tactic(auto)]

ghost use Rattle.std.specs.Prelude.{◌≡◌, true, ◌-◌, ◌<◌, drop};
ghost use Rattle.refusals.specs.Refusals.{fault_of, outcome, unless};
ghost use Rattle.dutyfile.specs.File.{bodies_at, entry_of};
ghost use Rattle.dutyfile.specs.Faults.{rising, file_fault};
ghost use Rattle.desk.specs.Desk.{desk_of, changes, count_change, new_total, new_mark, moved, replying};
ghost use Rattle.desk.specs.Steps.{step_fault, stepping, moved_by, stepped, emptied};
ghost use Rattle.desk.specs.Found.{Found};
ghost use Rattle.desk.specs.declared.Way.TheVariants.{Adding, Removing};

use dutyfile::Entry;
use refusals::Refusal;

// What a step does with its column.
#[derive(Clone, Copy)]
pub enum Way {
    Adding,
    Removing,
}

// What an accepted step says.
#[derive(Clone, Copy)]
pub enum Said {
    Changed,
    // The column to add is in already, or the one to remove is not in.
    Unchanged,
}

// Tests 1 to 9, then 19: the entry of the column with this number, counted from 1.
fn find_column(file: &[u8], number: u32) -> Result<Entry, Refusal>
    ensures { outcome result ≡ unless (step_fault file.now number) (entry_of (drop (bodies_at (number - 1)) file.now)) }
{
    // No `?`: the edit file_fault_as_19 changes the refusal here, and nothing else.
    let shape = match examine::examine(file) {
        Err(why) => return Err(why),
        Ok(shape) => shape,
    };
    let number = number as usize;
    if number < 1 || shape.columns < number {
        return Err(Refusal::StepColumn);
    }
    Ok(dutyfile::entry_at(file, number - 1))
}

// Whether a step changes a desk on which its column has this mark.
fn is_change(way: Way, mark: u8) -> bool
    ensures { result ≡ changes way mark }
{
    match way {
        Way::Adding => mark == 0,
        Way::Removing => mark != 0,
    }
}

// What a step adds to the count of each row of its column, wrapping: 1, or all bits set for one less.
fn count_change(way: Way) -> u32
    ensures { result ≡ count_change way }
{
    match way {
        Way::Adding => 1,
        Way::Removing => u32::MAX,
    }
}

// The total after a step.
fn new_total(way: Way, total: i32, cost: i32) -> i32
    ensures { result ≡ new_total way total cost }
{
    match way {
        Way::Adding => signed::wrapping_add(total, cost),
        Way::Removing => signed::wrapping_sub(total, cost),
    }
}

// The mark of a column after a step.
fn new_mark(way: Way) -> u8
    ensures { result ≡ new_mark way }
{
    match way {
        Way::Adding => 1,
        Way::Removing => 0,
    }
}

// A column with this body and cost is put in or taken out. A desk's parts stay four parameters: with a struct of `&mut` a contract names each
// part as it is left by nested pairs of `.exit`, which is no plainer.
fn move_column(
    way: Way,
    j: usize,
    body: &[u8],
    cost: i32,
    marks: &mut [u8; 256],
    covered: &mut [u32; 64],
    off: &mut u32,
    total: &mut i32,
)
    requires { (j < 256) × (rising 0 64 body.now ≡ true) }
    ensures { desk_of marks.new covered.new off.new total.new ≡ moved way j body.now cost (desk_of marks.old covered.old off.old total.old) }
{
    counts::move_rows(body, count_change(way), covered, off);
    *total = new_total(way, *total, cost);
    marks[j] = new_mark(way);
}

// The column of an entry, with its rows and its cost in the file, is put in or taken out.
fn move_entry(
    way: Way,
    file: &[u8],
    number: u32,
    e: Entry,
    marks: &mut [u8; 256],
    covered: &mut [u32; 64],
    off: &mut u32,
    total: &mut i32,
)
    requires { Found file.now number e }
    ensures { desk_of marks.new covered.new off.new total.new ≡ moved_by way file.now number (desk_of marks.old covered.old off.old total.old) }
{
    let start = usize::from(e.start);
    let end = start + usize::from(e.size);
    let cost = signed::from_bits(e.cost);
    move_column(
        way,
        number as usize - 1,
        &file[start..end],
        cost,
        marks,
        covered,
        off,
        total,
    );
}

// A step, by the column's number, counted from 1.
fn step(
    way: Way,
    file: &[u8],
    number: u32,
    marks: &mut [u8; 256],
    covered: &mut [u32; 64],
    off: &mut u32,
    total: &mut i32,
) -> Result<Said, Refusal>
    ensures result_value { outcome result ≡ stepping way file.now number (desk_of marks.old covered.old off.old total.old) }
    ensures total_after { desk_of marks.new covered.new off.new total.new ≡ stepped way file.now number (desk_of marks.old covered.old off.old total.old) }
{
    let e = find_column(file, number)?;
    if !is_change(way, marks[number as usize - 1]) {
        return Ok(Said::Unchanged);
    }
    move_entry(way, file, number, e, marks, covered, off, total);
    Ok(Said::Changed)
}

// Adds a column of a duty file to a desk, whatever the desk holds: changed, or unchanged where the column is in already, or a refusal; with
// these two the desk is as it was.
pub fn add(
    file: &[u8],
    number: u32,
    marks: &mut [u8; 256],
    covered: &mut [u32; 64],
    off: &mut u32,
    total: &mut i32,
) -> Result<Said, Refusal>
    ensures result_value { outcome result ≡ stepping Adding file.now number (desk_of marks.old covered.old off.old total.old) }
    ensures total_after { desk_of marks.new covered.new off.new total.new ≡ stepped Adding file.now number (desk_of marks.old covered.old off.old total.old) }
{
    step(Way::Adding, file, number, marks, covered, off, total)
}

// Removes a column of a duty file from a desk, whatever the desk holds: changed, or unchanged where the column is not in, or a refusal; with
// these two the desk is as it was.
pub fn remove(
    file: &[u8],
    number: u32,
    marks: &mut [u8; 256],
    covered: &mut [u32; 64],
    off: &mut u32,
    total: &mut i32,
) -> Result<Said, Refusal>
    ensures result_value { outcome result ≡ stepping Removing file.now number (desk_of marks.old covered.old off.old total.old) }
    ensures total_after { desk_of marks.new covered.new off.new total.new ≡ stepped Removing file.now number (desk_of marks.old covered.old off.old total.old) }
{
    step(Way::Removing, file, number, marks, covered, off, total)
}

// Makes a desk empty over a duty file, whatever it held; or refuses, with the desk as it was.
pub fn empty(
    file: &[u8],
    marks: &mut [u8; 256],
    covered: &mut [u32; 64],
    off: &mut u32,
    total: &mut i32,
) -> Result<(), Refusal>
    ensures result_value { fault_of result ≡ file_fault file.now }
    ensures total_after { desk_of marks.new covered.new off.new total.new ≡ emptied file.now (desk_of marks.old covered.old off.old total.old) }
{
    let rows = examine::examine(file)?.rows;
    *marks = [0u8; 256];
    *covered = [0u32; 64];
    *off = rows as u32;
    *total = 0;
    Ok(())
}

// What the columns that are in cost (01's price) where they are a plan, by the last two numbers of a desk alone.
pub fn reply(off: u32, total: i32) -> Option<i32>
    ensures { result ≡ replying off total }
{
    (off == 0).then_some(total)
}
