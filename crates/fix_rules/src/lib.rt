// The answer of a call that fixes or unfixes a column: a refusal of its own, or what a solve would say, of refusals 1 to
// 5 and of the run that follows. It is a type of its own so that an answer of a solve is never one of these four: the
// table of 01, and every promise about it, stays.
#![tactic(auto)]

#[derive(Clone, Copy)]
pub enum FixAnswer {
    Told(rules::Answer),
    NotKept,
    BadColumn,
    BadValue,
    NotFixed,
}
