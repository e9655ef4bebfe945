// The answer of a call that fixes or unfixes a column, as the numbers that the face hands out.
#![tactic(auto, unfolding(face::specs::Face::placed))]

ghost use Rattle.std.specs.Prelude.{◌≡◌};
ghost use Rattle.fix_face.specs.Numbers.{refused_by, fix_numbers};

use face::TevalumiAnswer;
use fix_rules::FixAnswer;

fn refused(status: usize) -> TevalumiAnswer
    ensures { result ≡ refused_by status }
{
    TevalumiAnswer {
        status,
        ..Default::default()
    }
}

// A function and not a `From`: both types are other crates', which the orphan rule refuses.
#[tactic(auto, unfolding(crate::specs::Numbers::fix_numbers, face::specs::Face::answer_numbers, fix_rules::specs::Calls::as_fix_row))]
pub fn fix_answer(a: FixAnswer) -> TevalumiAnswer
    ensures { result ≡ fix_numbers a }
{
    match a {
        FixAnswer::Told(told) => TevalumiAnswer::from(told),
        FixAnswer::NotKept => refused(41),
        FixAnswer::BadColumn => refused(42),
        FixAnswer::BadValue => refused(43),
        FixAnswer::NotFixed => refused(44),
    }
}
