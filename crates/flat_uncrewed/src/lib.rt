// The answer of the call for sailings that can't be crewed as a struct of numbers for C, with 0 in each field that the answer has no value
// for.
#![tactic(auto)]

ghost use Rattle.std.specs.Prelude.{◌≡◌};
ghost use Rattle.uncrewed.specs.Answer.{uncrewed_outcome};
ghost use Rattle.flat_uncrewed.specs.Struct.{uncrewed_of};

use refusals::Refusal;
use uncrewed::UncrewedAnswer;

// Which sailings of a file can't be crewed.
#[repr(C)]
#[derive(Clone, Copy)]
pub struct SppUncrewed {
    // 01's or 02's number of a refusal, or 0 where the call is accepted.
    pub refusal: u32,
    // 1 no crew for the row, 2 a plan exists, 3 stopped at the row.
    pub outcome: u32,
    // 02's k.
    pub row: u32,
    // How many columns are shown.
    pub columns: u32,
}

// The struct of these numbers.
fn numbers(refusal: u32, outcome: u32, row: u32, columns: u32) -> SppUncrewed
    ensures { result ≡ record { refusal = refusal; outcome = outcome; row = row; columns = columns } }
{
    SppUncrewed {
        refusal,
        outcome,
        row,
        columns,
    }
}

// The call's answer as a struct.
pub fn flat_uncrewed(answer: Result<UncrewedAnswer, Refusal>) -> SppUncrewed
    ensures { result ≡ uncrewed_of (uncrewed_outcome answer) }
{
    match answer {
        Err(why) => numbers(u32::from(why), 0, 0, 0),
        Ok(UncrewedAnswer::PlanExists) => numbers(0, 2, 0, 0),
        Ok(UncrewedAnswer::Stopped(row)) => numbers(0, 3, row, 0),
        Ok(UncrewedAnswer::NoCrew(reached)) => numbers(0, 1, reached.row, reached.columns),
    }
}
