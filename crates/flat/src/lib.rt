// The answers of the calls as structs of numbers for C, with 0 in each field that the answer has no value for.
#![tactic(auto)]

ghost use Rattle.std.specs.Prelude.{◌≡◌, ◌≤◌};
ghost use Rattle.refusals.specs.Refusals.{outcome};
ghost use Rattle.answer.specs.Answer.{search_outcome};
ghost use Rattle.flat.specs.Flat.{edition_number, shape_of, written_of, checked_of, reduced_of, answer_of};
ghost use Rattle.flat.specs.Fits.{ShapeFits, LengthFits, RowFits, UsedFits, ColumnsFit};

use answer::{Found, SearchAnswer};
use dutyfile::{Edition, Shape};
use reduce::Bound;
use refusals::Refusal;
use verify::Verdict;

// What reading comes to: 01's m, n and t, and the edition.
#[repr(C)]
#[derive(Clone, Copy, Default)]
pub struct SppShape {
    // 01's number of a refusal, or 0 where the call is accepted; so in each struct.
    pub refusal: u32,
    pub rows: u32,
    pub columns: u32,
    pub entries: u32,
    // 1 for SPP1, 2 for SPP2.
    pub edition: u32,
}

// What writing comes to: the file's length.
#[repr(C)]
#[derive(Clone, Copy, Default)]
pub struct SppWritten {
    pub refusal: u32,
    pub length: u32,
}

// What checking an offered plan comes to.
#[repr(C)]
#[derive(Clone, Copy, Default)]
pub struct SppChecked {
    pub refusal: u32,
    // 1 for a plan, else 0.
    pub is_plan: u32,
    // The lowest row not covered exactly once, numbered from 1, and how often it is covered.
    pub row: u32,
    pub covered: u32,
    // A plan's cost.
    pub price: i64,
}

// What reducing comes to.
#[repr(C)]
#[derive(Clone, Copy, Default)]
pub struct SppReduced {
    pub refusal: u32,
    // 01's sailings used.
    pub used: u32,
    // 01's floor.
    pub bound: i64,
}

// An edition's number.
fn edition_number(edition: Edition) -> u32
    ensures { result ≡ edition_number edition }
{
    edition as u32
}

// The reader's answer as a struct.
pub fn flat_shape(answer: Result<Shape, Refusal>) -> SppShape
    requires { ShapeFits (outcome answer) }
    ensures { result ≡ shape_of (outcome answer) }
{
    match answer {
        Err(why) => SppShape {
            refusal: u32::from(why),
            ..SppShape::default()
        },
        Ok(found) => SppShape {
            refusal: 0,
            rows: found.rows as u32,
            columns: found.columns as u32,
            entries: found.entries as u32,
            edition: edition_number(found.edition),
        },
    }
}

// The writer's answer as a struct.
pub fn flat_written(answer: Result<usize, Refusal>) -> SppWritten
    requires { LengthFits (outcome answer) }
    ensures { result ≡ written_of (outcome answer) }
{
    match answer {
        Err(why) => SppWritten {
            refusal: u32::from(why),
            length: 0,
        },
        Ok(size) => SppWritten {
            refusal: 0,
            length: size as u32,
        },
    }
}

// The plan check's answer as a struct.
pub fn flat_checked(answer: Result<Verdict, Refusal>) -> SppChecked
    requires { RowFits (outcome answer) }
    ensures { result ≡ checked_of (outcome answer) }
{
    match answer {
        Err(why) => SppChecked {
            refusal: u32::from(why),
            ..SppChecked::default()
        },
        Ok(verdict) => match verdict {
            Verdict::Plan(cost) => SppChecked {
                is_plan: 1,
                price: signed::wide(cost),
                ..SppChecked::default()
            },
            Verdict::NotOnce(row, times) => SppChecked {
                row: row as u32,
                covered: times,
                ..SppChecked::default()
            },
        },
    }
}

// The reducing call's answer as a struct.
pub fn flat_reduced(answer: Result<Bound, Refusal>) -> SppReduced
    requires { UsedFits (outcome answer) }
    ensures { result ≡ reduced_of (outcome answer) }
{
    match answer {
        Err(why) => SppReduced {
            refusal: u32::from(why),
            ..SppReduced::default()
        },
        Ok(found) => SppReduced {
            refusal: 0,
            used: found.used as u32,
            bound: found.bound,
        },
    }
}

// What searching comes to.
#[repr(C)]
#[derive(Clone, Copy, Default)]
pub struct SppAnswer {
    pub refusal: u32,
    // 1 best, 2 none, 3 stopped.
    pub outcome: u32,
    // 1 where a plan is shown, else 0.
    pub has_plan: u32,
    // 01's number of duties of the plan shown.
    pub columns: u32,
    pub nodes: u32,
    // The cost of the plan shown.
    pub price: i64,
    // 01's root floor.
    pub bound: i64,
}

// The struct of a plan that is shown, with the number of the outcome.
fn shown(outcome: u32, plan: Found) -> SppAnswer
    requires { plan.columns ≤ 256 }
    ensures { result ≡ record { refusal = 0; outcome = outcome; has_plan = 1; columns = plan.columns; nodes = plan.nodes; price = plan.cost; bound = plan.bound } }
{
    SppAnswer {
        refusal: 0,
        outcome,
        has_plan: 1,
        columns: plan.columns as u32,
        nodes: plan.nodes,
        price: plan.cost,
        bound: plan.bound,
    }
}

// The search call's answer as a struct.
pub fn flat_answer(answer: Result<SearchAnswer, Refusal>) -> SppAnswer
    requires { ColumnsFit (search_outcome answer) }
    ensures { result ≡ answer_of (search_outcome answer) }
{
    match answer {
        Err(why) => SppAnswer {
            refusal: u32::from(why),
            ..SppAnswer::default()
        },
        Ok(told) => match told {
            SearchAnswer::None(nodes) => SppAnswer {
                outcome: 2,
                nodes,
                ..SppAnswer::default()
            },
            SearchAnswer::Stopped(at) => SppAnswer {
                outcome: 3,
                nodes: at.nodes,
                bound: at.bound,
                ..SppAnswer::default()
            },
            SearchAnswer::Best(plan) => shown(1, plan),
            SearchAnswer::StoppedWith(kept) => shown(3, kept),
        },
    }
}
