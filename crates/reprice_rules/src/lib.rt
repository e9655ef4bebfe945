// The answer of a solve from any start, with the way that it took. A plan that solve refuses with 7 is solved with
// costs 0, from where every start is dual feasible, and the basis that this leaves is priced anew with the plan's own
// costs.
#![tactic(auto)]

#[derive(Clone, Copy)]
pub enum AnyAnswer {
    // what solve says, other than 7
    Direct(rules::Answer),
    // what the run with costs 0 says, where that isn't Optimal
    Halted(rules::Answer),
    // the run with costs 0 was Optimal, after these steps: what the call with the plan's own costs says
    Repriced {
        steps: usize,
        answer: fix_rules::FixAnswer,
    },
}
