// The types that the solver's code and its definitions share.
// From minilp 0.2.2, src/solver.rs, Apache-2.0, changed.
#![tactic(auto)]

// Where a variable stands: its row, or its place among the non-basic ones.
#[derive(Clone, Copy)]
pub enum VarState {
    Basic(usize),
    NonBasic(usize),
}

// 02, Ask 9: `fixed` is the mark of a column that is held still. It has all three then, so that no bound rule lets it move.
#[derive(Clone, Copy)]
pub struct NonBasicVarState {
    pub at_min: bool,
    pub at_max: bool,
    pub fixed: bool,
}

// 01: "The entering column travels with its price, score and distance".
#[derive(Clone, Copy)]
pub struct Entering {
    pub col: usize,
    pub price: f64,
    pub score: f64,
    pub distance: f64,
}

// 02, Ask 8: the leaving row of a dual step travels as the entering column does, with its infeasibility and score, and
// with the value that its variable is to take.
#[derive(Clone, Copy)]
pub struct LeavingVar {
    pub row: usize,
    pub infeasibility: f64,
    pub score: f64,
    pub value: f64,
}

// What the ratio on prices gives: the entering column with its value, difference and pivot; no column; or a quotient
// that isn't finite.
#[derive(Clone, Copy)]
pub enum DualRatio {
    Exchange {
        entering: Entering,
        value: f64,
        diff: f64,
        pivot: f64,
    },
    Nothing,
    NotFinite,
}

// 01: "The answer to a choice carries just the numbers of its own case".
#[derive(Clone, Copy)]
pub enum PivotInfo {
    Flip {
        value: f64,
        diff: f64,
    },
    Exchange {
        value: f64,
        diff: f64,
        row: usize,
        pivot: f64,
        leaving: f64,
    },
}

#[derive(Clone, Copy)]
pub enum Ratio {
    Pivot(PivotInfo),
    Unbounded,
    NotFinite,
}

// Why a run ends.
#[derive(Clone, Copy)]
pub enum Stop {
    Finished,
    Spent,
    Unbounded,
    NotFinite,
    Singular,
    // No column can enter for this row.
    Infeasible(usize),
}

// The largest excess so far and its place: a value's number, or the number of values and then a kept row's. `at` is the
// number of all places where nothing exceeds 0.0.
#[derive(Clone, Copy)]
pub struct Worst {
    pub at: usize,
    pub excess: f64,
}

// What the final check says, with the largest excess: a rejection names its place, a value or a kept row.
#[derive(Clone, Copy)]
pub enum Checked {
    Passed(f64),
    Value { value: usize, excess: f64 },
    Row { row: usize, excess: f64 },
}

// The answer of a solve. Those that a run gives carry the objective and the steps, those that the final check gives its
// excess too.
#[derive(Clone, Copy)]
pub enum Answer {
    Optimal {
        objective: f64,
        steps: usize,
        excess: f64,
    },
    BadSize,
    BadNumber,
    BadEntry {
        row: usize,
        place: usize,
    },
    CrossedBounds {
        column: usize,
    },
    FalseEmptyRow {
        row: usize,
    },
    StartNotFinite,
    SlackOutside,
    Unbounded {
        objective: f64,
        steps: usize,
    },
    Spent {
        objective: f64,
        steps: usize,
    },
    NotFinite {
        objective: f64,
        steps: usize,
    },
    Singular {
        objective: f64,
        steps: usize,
    },
    Infeasible {
        objective: f64,
        steps: usize,
        row: usize,
    },
    ValueRejected {
        objective: f64,
        steps: usize,
        value: usize,
        excess: f64,
    },
    RowRejected {
        objective: f64,
        steps: usize,
        row: usize,
        excess: f64,
    },
}
