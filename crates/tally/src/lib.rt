// The tally of a walk.
#![tactic(auto)]

ghost use Rattle.std.specs.Prelude.{◌≡◌, ◌&&◌, ℕ, ◌+◌, ◌<◌, leb};
ghost use Rattle.rules.specs.Limited.{fresh, entered, halted, offered};
ghost use Rattle.tally.specs.Tally.{taken_in, shown};

use node::Node;

// What a walk has come to so far.
#[derive(Clone, Copy)]
pub struct Tally {
    // Nodes entered.
    pub nodes: u32,
    // Nodes left of the node limit (01: the remaining allowance).
    pub left: u32,
    // Whether one more node would have been entered.
    pub stopped: bool,
    // Whether there is an incumbent (01: a kept plan).
    pub kept: bool,
    // Its cost.
    pub cost: u32,
    // The column marks of its node, where 2 is taken.
    pub plan: [u8; 256],
}

// Before the root is entered.
pub fn fresh_tally(limit: u32) -> Tally
    ensures { (w : ℕ) → shown w result ≡ fresh limit }
{
    Tally {
        nodes: 0,
        left: limit,
        stopped: false,
        kept: false,
        cost: 0,
        plan: [0u8; 256],
    }
}

// A node is entered.
pub fn enter(mut t: Tally) -> Tally
    requires { (0 < t.left) × (t.nodes + t.left < 4294967296) }
    ensures { (w : ℕ) → shown w result ≡ entered (shown w t) }
{
    t.nodes += 1;
    t.left -= 1;
    t
}

// A node would be entered and none is left.
pub fn halt(mut t: Tally) -> Tally
    ensures { (w : ℕ) → shown w result ≡ halted (shown w t) }
{
    t.stopped = true;
    t
}

// Whether there is an incumbent and a bound is not below its cost.
pub fn is_reached(bound: u32, kept: bool, cost: u32) -> bool
    ensures { result ≡ (kept && leb cost bound) }
{
    kept && cost <= bound
}

// A plan is met: the taken columns of a node with no open row.
pub fn offer(t: Tally, s: Node) -> Tally
    ensures { (w : ℕ) → shown w result ≡ offered (shown w t) s.bound (taken_in w s.column) }
{
    if is_reached(s.bound, t.kept, t.cost) {
        return t;
    }
    let plan = s.column;
    Tally {
        kept: true,
        cost: s.bound,
        plan,
        ..t
    }
}
