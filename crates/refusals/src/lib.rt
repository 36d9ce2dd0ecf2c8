// Why a call declines, and what a test comes to.
#![tactic(auto)]

ghost use Rattle.std.specs.Prelude.{◌≡◌};
ghost use Rattle.refusals.specs.Refusals.{number_of};

// 01's table "When a call declines", with 02's numbers from 14 on: a case for each cause.
#[derive(Clone, Copy)]
pub enum Refusal {
    // Under 8 bytes, or neither SPP1 nor SPP2.
    Magic = 1,
    // Rows or columns out of range.
    Counts = 2,
    // The file ends inside the contents.
    Contents = 3,
    // A cost out of range.
    Cost = 4,
    // A body length out of range.
    Length = 5,
    // The running sum of lengths is above 4,096.
    Total = 6,
    // A body that does not start where the former ends.
    Start = 7,
    // The file's length is not the last body's end.
    End = 8,
    // A row number out of range or not rising.
    Row = 9,
    // A lent list or buffer is too short.
    Room = 10,
    // The node limit is out of range.
    NodeLimit = 11,
    // An offered column is out of range or not rising.
    Offered = 12,
    // The writer's lists disagree in length.
    Lists = 13,
    // An agreed column is out of range or not rising.
    Agreed = 14,
    // An absent column is out of range or not rising.
    Absent = 15,
    // The crews or the vessels of a table are out of range, or there are more crews than vessels.
    TableSize = 16,
    // A cost in a table is out of range.
    TableCost = 17,
    // More columns than a call that appends some takes.
    TrialColumns = 18,
    // The column of a step is out of range.
    StepColumn = 19,
    // A pair names a column out of range, or one column twice.
    Pair = 20,
    // The list of pairs has an odd length, or more than 128 pairs.
    PairCount = 21,
}

// 01's number of a refusal.
impl From<Refusal> for u32 {
    ghost from_gives = { λ why r. r ≡ number_of why };

    fn from(why: Refusal) -> u32 {
        why as u32
    }
}
