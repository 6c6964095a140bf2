// What a call of plan gives.

// The part that the plan is.
#[derive(Clone, Copy, Debug, PartialEq, Eq)]
pub enum Part {
    Chain,
    Pair,
}

// chain: the requests that the chain part serves. matched: the match count. paired: the requests that the pair part serves. ceiling: no
// feasible plan serves more.
#[derive(Clone, Copy, Debug, PartialEq, Eq)]
pub struct Summary {
    pub chain: u16,
    pub matched: u16,
    pub paired: u16,
    pub used: Part,
    pub ceiling: u16,
}
