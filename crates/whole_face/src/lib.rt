// The answers on whole numbers as the numbers that the face hands out.
#![tactic(auto, unfolding(crate::specs::Numbers::whole_numbers, crate::specs::Numbers::proposal_numbers))]

ghost use Rattle.std.specs.Prelude.{◌≡◌};
ghost use Rattle.whole_face.specs.Numbers.{whole_numbers, proposal_face, no_case, proposal_numbers};

use whole_propose::Proposal;
use whole_round::Rounded;

// Kind 0 whole, 1 beyond, 2 not a number; the whole number, and the double that is beyond.
#[repr(C)]
#[derive(Clone, Copy, Default)]
pub struct TevalumiWhole {
    pub kind: usize,
    pub number: i64,
    pub beyond: f64,
}

// Status 0, 1 or 41; kind 0 proposed, 1 nothing, 2 an amount isn't whole, 3 a multiplier isn't; then its column or row,
// and its case.
#[repr(C)]
#[derive(Clone, Copy, Default)]
pub struct TevalumiProposal {
    pub status: usize,
    pub kind: usize,
    pub place: usize,
    pub answer: TevalumiWhole,
}

impl From<Rounded> for TevalumiWhole {
    fn from(r: Rounded) -> TevalumiWhole
        ensures { result ≡ whole_numbers r }
    {
        match r {
            Rounded::Whole(number) => TevalumiWhole {
                number,
                ..Default::default()
            },
            Rounded::Beyond(beyond) => TevalumiWhole {
                kind: 1,
                beyond,
                ..Default::default()
            },
            Rounded::NotANumber => TevalumiWhole {
                kind: 2,
                ..Default::default()
            },
        }
    }
}

fn not_whole(kind: usize, place: usize, r: Rounded) -> TevalumiProposal
    ensures { result ≡ proposal_face 0 kind place (whole_numbers r) }
{
    TevalumiProposal {
        status: 0,
        kind,
        place,
        answer: TevalumiWhole::from(r),
    }
}

fn told(status: usize, kind: usize) -> TevalumiProposal
    ensures { result ≡ proposal_face status kind 0 no_case }
{
    TevalumiProposal {
        status,
        kind,
        ..Default::default()
    }
}

impl From<Proposal> for TevalumiProposal {
    fn from(p: Proposal) -> TevalumiProposal
        ensures { result ≡ proposal_numbers p }
    {
        match p {
            Proposal::Proposed => told(0, 0),
            Proposal::Nothing => told(0, 1),
            Proposal::Refused(number) => told(number, 0),
            Proposal::AmountNotWhole { column, answer } => not_whole(2, column, answer),
            Proposal::MultiplierNotWhole { row, answer } => not_whole(3, row, answer),
        }
    }
}
