// The assigning call's answer as a struct of numbers for C, with 0 in each field that the answer has no value for.
#![tactic(auto)]

ghost use Rattle.std.specs.Prelude.{◌≡◌};
ghost use Rattle.assign.specs.Answer.{assign_outcome};
ghost use Rattle.flat_assign.specs.Struct.{assigned_of};

use refusals::Refusal;

// What assigning crews to vessels comes to.
#[repr(C)]
#[derive(Clone, Copy)]
pub struct SppAssigned {
    // 02's number of a refusal, or 0 where the call is accepted.
    pub refusal: u32,
    // 1 best, 2 none.
    pub outcome: u32,
    // The least total.
    pub total: u64,
}

// The struct of these numbers.
fn assigned(refusal: u32, outcome: u32, total: u64) -> SppAssigned
    ensures { result ≡ record { refusal = refusal; outcome = outcome; total = total } }
{
    SppAssigned {
        refusal,
        outcome,
        total,
    }
}

// The assigning call's answer as a struct.
pub fn flat_assigned(answer: Result<Option<u32>, Refusal>) -> SppAssigned
    ensures { result ≡ assigned_of (assign_outcome answer) }
{
    match answer {
        Err(why) => assigned(u32::from(why), 0, 0),
        Ok(None) => assigned(0, 2, 0),
        Ok(Some(total)) => assigned(0, 1, u64::from(total)),
    }
}
