// An answer as the numbers that the face hands out: an enum can't be returned by an exported call.
#![tactic(auto)]

ghost use Rattle.std.specs.Prelude.{◌≡◌};
ghost use Rattle.sheet_rules.specs.Verdict.{verdict_numbers};
ghost use lib.Ieee.{of_bits, binary64};
ghost use Rattle.face.specs.Face.{tri_answer, sheet_numbers, answer, answer_numbers};

use rules::Answer;
use sheet_rules::Verdict;

// 01's number of a triangle solve, and how many places are listed afterwards.
#[repr(C)]
#[derive(Clone, Copy)]
pub struct TriAnswer {
    pub status: usize,
    pub places: usize,
}

impl From<lu::Answer> for TriAnswer {
    fn from(a: lu::Answer) -> TriAnswer
        ensures { result ≡ tri_answer a }
    {
        match a {
            lu::Answer::Solved(n) => TriAnswer {
                status: 0,
                places: n,
            },
            lu::Answer::BadTriangle => TriAnswer {
                status: 1,
                places: 0,
            },
            lu::Answer::NotFinite => TriAnswer {
                status: 2,
                places: 0,
            },
            lu::Answer::BadList => TriAnswer {
                status: 3,
                places: 0,
            },
        }
    }
}

// 01's number of a verdict, its kind (0 not a plan, 1 no floor, 2 gap, 3 none exists), and the gap.
#[repr(C)]
#[derive(Clone, Copy, Default)]
pub struct SheetVerdict {
    pub status: usize,
    pub kind: usize,
    pub value: i64,
}

impl From<Verdict> for SheetVerdict {
    fn from(v: Verdict) -> SheetVerdict
        ensures { sheet_numbers result ≡ verdict_numbers v }
    {
        match v {
            Verdict::NoneExists => SheetVerdict {
                kind: 3,
                ..Default::default()
            },
            Verdict::NotPlan => SheetVerdict::default(),
            Verdict::NoFloor => SheetVerdict {
                kind: 1,
                ..Default::default()
            },
            Verdict::Gap(gap) => SheetVerdict {
                kind: 2,
                value: gap,
                ..Default::default()
            },
            Verdict::Refused(number) => SheetVerdict {
                status: number,
                ..Default::default()
            },
        }
    }
}

// 01's answer of a solve. `place` says what `at` is: 0 nothing, 1 the row of an entry, whose place in that row is
// `within`, 2 a column, 3 a row, 4 a value, 5 a kept row. `excess` is the final check's, 0.0 where it wasn't asked.
#[repr(C)]
#[derive(Clone, Copy, Default)]
pub struct TevalumiAnswer {
    pub status: usize,
    pub objective: f64,
    pub steps: usize,
    pub place: usize,
    pub at: usize,
    pub within: usize,
    pub excess: f64,
}

fn ended(status: usize, objective: f64, steps: usize, excess: f64) -> TevalumiAnswer
    ensures { result ≡ answer status objective steps 0 0 0 excess }
{
    TevalumiAnswer {
        status,
        objective,
        steps,
        excess,
        ..Default::default()
    }
}

// Of no run: objective 0.0, 0 steps.
fn refused(status: usize) -> TevalumiAnswer
    ensures { result ≡ answer status (of_bits binary64 0) 0 0 0 0 (of_bits binary64 0) }
{
    ended(status, 0.0, 0, 0.0)
}

impl TevalumiAnswer {
    // With what it names.
    fn at(self, place: usize, at: usize, within: usize) -> TevalumiAnswer
        ensures { result ≡ answer self.status self.objective self.steps place at within self.excess }
    {
        TevalumiAnswer {
            place,
            at,
            within,
            ..self
        }
    }
}

#[tactic(auto, unfolding(crate::specs::Face::answer_numbers, crate::specs::Face::placed, rules::specs::Answers::as_row))]
impl From<Answer> for TevalumiAnswer {
    fn from(a: Answer) -> TevalumiAnswer
        ensures { result ≡ answer_numbers a }
    {
        match a {
            Answer::Optimal {
                objective,
                steps,
                excess,
            } => ended(0, objective, steps, excess),
            Answer::BadSize => refused(1),
            Answer::BadNumber => refused(2),
            Answer::BadEntry { row, place } => refused(3).at(1, row, place),
            Answer::CrossedBounds { column } => refused(4).at(2, column, 0),
            Answer::FalseEmptyRow { row } => refused(5).at(3, row, 0),
            Answer::StartNotFinite => refused(6),
            Answer::SlackOutside => refused(7),
            Answer::Unbounded { objective, steps } => ended(20, objective, steps, 0.0),
            Answer::Spent { objective, steps } => ended(21, objective, steps, 0.0),
            Answer::NotFinite { objective, steps } => ended(23, objective, steps, 0.0),
            Answer::Singular { objective, steps } => ended(25, objective, steps, 0.0),
            Answer::Infeasible {
                objective,
                steps,
                row,
            } => ended(26, objective, steps, 0.0).at(5, row, 0),
            Answer::ValueRejected {
                objective,
                steps,
                value,
                excess,
            } => ended(24, objective, steps, excess).at(4, value, 0),
            Answer::RowRejected {
                objective,
                steps,
                row,
                excess,
            } => ended(24, objective, steps, excess).at(5, row, 0),
        }
    }
}
