// Crews onto vessels (02, P5): what the code passes by value. The definitions are in specs/, their laws in proofs/.
#![tactic(auto)]

// The cheapest of the vessels looked at so far for one crew.
#[derive(Clone, Copy)]
pub struct Pick {
    // What it comes to, with the crews after this one.
    pub cost: u32,
    // The vessel, from 0.
    pub vessel: usize,
}
