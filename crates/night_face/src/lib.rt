// The night's answers as the numbers that the face hands out.
#![tactic(auto)]

ghost use Rattle.std.specs.Prelude.{◌≡◌};
ghost use Rattle.night_face.specs.Numbers.{verdict_of, stage_numbers, no_stage, night_face, night_numbers};

use face::{SheetVerdict, TevalumiAnswer};
use night_rules::{Audit, NightAnswer, Stage};
use whole_face::TevalumiProposal;

// A stage: how its run ended; audit 0 nothing was proposed, 1 a proposed number isn't whole (which one: proposal), 2
// opening refused (with this number: opening), 3 the sheet was opened and judged (verdict).
#[repr(C)]
#[derive(Clone, Copy, Default)]
pub struct TevalumiStage {
    pub run: TevalumiAnswer,
    pub audit: usize,
    pub opening: usize,
    pub proposal: TevalumiProposal,
    pub verdict: SheetVerdict,
}

// Status 1 for short memory, else 0. Kind 1 the first audit shows no gap, 2 the rows are full, 3 the entries, 4 an alarm
// cost is too large (that of column), 5 the found cost is, 6 the first stage's amounts stand, 7 the second's are handed
// out. A stage that wasn't run is all 0.
#[repr(C)]
#[derive(Clone, Copy, Default)]
pub struct TevalumiNight {
    pub status: usize,
    pub kind: usize,
    pub column: usize,
    pub first: TevalumiStage,
    pub second: TevalumiStage,
}

#[tactic(auto, unfolding(crate::specs::Numbers::verdict_of))]
fn verdict_of(v: sheet_rules::Verdict) -> SheetVerdict
    ensures { result ≡ verdict_of v }
{
    SheetVerdict::from(v)
}

#[tactic(auto, unfolding(crate::specs::Numbers::stage_numbers, crate::specs::Numbers::audit_numbers))]
impl From<Stage> for TevalumiStage {
    fn from(s: Stage) -> TevalumiStage
        ensures { result ≡ stage_numbers s }
    {
        let run = TevalumiAnswer::from(s.run);
        match s.audit {
            Audit::NotRun => TevalumiStage {
                run,
                ..Default::default()
            },
            Audit::NotWhole(p) => TevalumiStage {
                run,
                audit: 1,
                proposal: TevalumiProposal::from(p),
                ..Default::default()
            },
            Audit::NotOpened(opening) => TevalumiStage {
                run,
                audit: 2,
                opening,
                ..Default::default()
            },
            Audit::Judged(v) => TevalumiStage {
                run,
                audit: 3,
                verdict: verdict_of(v),
                ..Default::default()
            },
        }
    }
}

// The stops after the first stage, which alone was run.
fn after_first(kind: usize, column: usize, first: Stage) -> TevalumiNight
    ensures { result ≡ night_face 0 kind column (stage_numbers first) no_stage }
{
    TevalumiNight {
        kind,
        column,
        first: TevalumiStage::from(first),
        ..Default::default()
    }
}

fn after_both(kind: usize, first: Stage, second: Stage) -> TevalumiNight
    ensures { result ≡ night_face 0 kind 0 (stage_numbers first) (stage_numbers second) }
{
    TevalumiNight {
        kind,
        first: TevalumiStage::from(first),
        second: TevalumiStage::from(second),
        ..Default::default()
    }
}

#[tactic(auto, unfolding(crate::specs::Numbers::night_numbers))]
impl From<NightAnswer> for TevalumiNight {
    fn from(a: NightAnswer) -> TevalumiNight
        ensures { result ≡ night_numbers a }
    {
        match a {
            NightAnswer::ShortMemory => TevalumiNight {
                status: 1,
                ..Default::default()
            },
            NightAnswer::NoGap(first) => after_first(1, 0, first),
            NightAnswer::RowsFull(first) => after_first(2, 0, first),
            NightAnswer::EntriesFull(first) => after_first(3, 0, first),
            NightAnswer::CostBeyond { first, column } => after_first(4, column, first),
            NightAnswer::FoundBeyond(first) => after_first(5, 0, first),
            NightAnswer::FirstStands { first, second } => after_both(6, first, second),
            NightAnswer::Handed { first, second } => after_both(7, first, second),
        }
    }
}
