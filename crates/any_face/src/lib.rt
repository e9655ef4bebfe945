// The answer of a solve from any start, as the numbers that the face hands out.
#![tactic(auto)]

ghost use Rattle.std.specs.Prelude.{◌≡◌};
ghost use Rattle.any_face.specs.Numbers.{any_numbers};

use face::TevalumiAnswer;
use reprice_rules::AnyAnswer;

// The last run's answer. Way 0 solve answered, 1 solve refused with 7 and the run with costs 0 ended in this answer,
// which isn't 0, 2 the basis that the run with costs 0 left was priced anew. The steps of the run with costs 0, 0 where
// there was none.
#[repr(C)]
#[derive(Clone, Copy)]
pub struct TevalumiAnyAnswer {
    pub answer: TevalumiAnswer,
    pub way: usize,
    pub costless_steps: usize,
}

impl From<AnyAnswer> for TevalumiAnyAnswer {
    fn from(a: AnyAnswer) -> TevalumiAnyAnswer
        ensures { result ≡ any_numbers a }
    {
        match a {
            AnyAnswer::Direct(told) => TevalumiAnyAnswer {
                answer: TevalumiAnswer::from(told),
                way: 0,
                costless_steps: 0,
            },
            AnyAnswer::Halted(told) => {
                let answer = TevalumiAnswer::from(told);
                TevalumiAnyAnswer {
                    answer,
                    way: 1,
                    costless_steps: answer.steps,
                }
            }
            AnyAnswer::Repriced { steps, answer } => TevalumiAnyAnswer {
                answer: fix_face::fix_answer(answer),
                way: 2,
                costless_steps: steps,
            },
        }
    }
}
