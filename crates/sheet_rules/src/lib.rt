// What the audit sheet's definitions and its code share: an edit, and a verdict.
#![tactic(auto)]

// Kind 1 to 9 of 01's table; a kind reads the row, the column and the number that it uses.
#[derive(Clone, Copy)]
pub struct Edit {
    pub kind: usize,
    pub row: usize,
    pub column: usize,
    pub number: i64,
}

// No plan exists, not a plan, no floor, the gap in 1/1024 of a cost unit, or refused with 01's number.
#[derive(Clone, Copy)]
pub enum Verdict {
    NoneExists,
    NotPlan,
    NoFloor,
    Gap(i64),
    Refused(usize),
}
