// The answers of the desk's calls as numbers for C, with 0 in each field that an answer has no value for.
#![tactic(auto)]

ghost use Rattle.std.specs.Prelude.{◌≡◌};
ghost use Rattle.refusals.specs.Refusals.{fault_of, outcome};
ghost use Rattle.flat_desk.specs.Struct.{fault_number, step_of, reply_in};

use desk::Said;
use refusals::Refusal;

// What a step did.
#[repr(C)]
#[derive(Clone, Copy)]
pub struct SppStep {
    // 01's or 02's number of a refusal, or 0 where the step is accepted.
    pub refusal: u32,
    // 1, or 0 where the column to add was in already, or the one to remove was not in.
    pub changed: u32,
}

// Whether the columns that are in are a plan.
#[repr(C)]
#[derive(Clone, Copy)]
pub struct SppReply {
    // 0: nothing is refused.
    pub refusal: u32,
    // 1 for a plan, else 0.
    pub is_plan: u32,
    // What the plan costs, 01's price.
    pub price: i32,
}

// The number of a refusal, or 0 where tests pass.
pub fn flat_check(test: Result<(), Refusal>) -> u32
    ensures { result ≡ fault_number (fault_of test) }
{
    match test {
        Ok(()) => 0,
        Err(why) => u32::from(why),
    }
}

// A step's answer as a struct.
pub fn flat_step(answer: Result<Said, Refusal>) -> SppStep
    ensures { result ≡ step_of (outcome answer) }
{
    match answer {
        Err(why) => SppStep {
            refusal: u32::from(why),
            changed: 0,
        },
        Ok(Said::Unchanged) => SppStep {
            refusal: 0,
            changed: 0,
        },
        Ok(Said::Changed) => SppStep {
            refusal: 0,
            changed: 1,
        },
    }
}

// A reply as a struct.
pub fn flat_reply(answer: Option<i32>) -> SppReply
    ensures { result ≡ reply_in answer }
{
    match answer {
        None => SppReply {
            refusal: 0,
            is_plan: 0,
            price: 0,
        },
        Some(total) => SppReply {
            refusal: 0,
            is_plan: 1,
            price: total,
        },
    }
}
