// The least totals by sets of used vessels, as a table of 65,536 places, and the vessels that keep the least total. A set is a number in which
// vessel j, counted from 0, weighs 2 to the power j; as many crews have their vessel as the set holds.
#![tactic(auto)]

ghost use Rattle.std.specs.Prelude.{◌≡◌, map, suc, ◌+◌, ◌%◌, ◌<◌, ◌≤◌, get_or, length};
ghost use Rattle.refusals.specs.Refusals.{front};
ghost use Rattle.assignments.specs.Sets.{no_total, offer, lower, pick as pick_of, least_total, vessels as vesselsOf};
ghost use Rattle.vessel_sets.specs.Table.{offers_in, Low, Row, Reach, Sized, Filled};

use assignments::Pick;

// What a vessel of weight w comes to for a crew, where `rest` is the set s without the vessels below it. The place is read before the
// tests, in range for any set, so that they choose between two values and no branch goes by the set: twice as fast.
fn vessel_offer(cost: u32, least: &[u32; 65536], s: usize, w: usize, rest: usize) -> u32
    requires { Reach cost least.now s w rest }
    ensures { result ≡ offer (rest % 2) cost (get_or least.now (s + w) 0) }
{
    let after = least[(s + w) % 65536];
    if rest % 2 != 0 {
        return 1000000000;
    }
    if cost == 0 {
        return 1000000000;
    }
    cost + after
}

// One more vessel looked at.
fn cheaper(best: Pick, cost: u32, vessel: usize) -> Pick
    ensures { result ≡ lower best cost vessel }
{
    if cost < best.cost {
        return Pick { cost, vessel };
    }
    best
}

// The cheapest vessel for a crew with these costs, and of equals the lowest.
fn pick(row: &[u32; 16], vessels: usize, least: &[u32; 65536], s: usize) -> Pick
    requires { Row row.now vessels least.now s }
    ensures { result ≡ pick_of (offers_in row.now least.now s) vessels }
{
    let mut best = Pick {
        cost: 1000000000,
        vessel: 0,
    };
    let mut w = 1;
    let mut rest = s;
    for (j, &cost) in row[..vessels].iter().enumerate() {
        best = cheaper(best, vessel_offer(cost, least, s, w, rest), j);
        w *= 2;
        rest /= 2;
    }
    best
}

// A table of zeros.
pub fn blank() -> [u32; 65536]
    ensures { (length result ≡ 65536) × Low result }
{
    [0u32; 65536]
}

// Fills the table from the set of all vessels given to the empty one: a set needs only sets with one vessel more.
pub fn fill(table: [[u32; 16]; 16], crews: usize, vessels: usize, least: &mut [u32; 65536])
    requires { Sized table crews vessels × (length least.old ≡ 65536) × Low least.old }
    ensures { Filled table crews vessels 0 least.new }
{
    for s in (0..1usize << vessels).rev() {
        let crew = s.count_ones() as usize;
        least[s] = if crew < crews {
            pick(&table[crew], vessels, least, s).cost
        } else {
            0
        };
    }
}

// Writes the vessels, counted from 1, crew by crew: for each the lowest that keeps the least total.
pub fn walk(
    table: [[u32; 16]; 16],
    crews: usize,
    vessels: usize,
    least: &[u32; 65536],
    answer: &mut [u8],
)
    requires { Sized table crews vessels × Filled table crews vessels 0 least.now × (crews ≤ length answer.old) × (least_total table crews vessels < no_total) }
    ensures { answer.new ≡ front (map suc (vesselsOf table crews vessels)) answer.old }
{
    let mut s = 0;
    for crew in 0..crews {
        let best = pick(&table[crew], vessels, least, s);
        answer[crew] = (best.vessel + 1) as u8;
        s += 1 << best.vessel;
    }
}
