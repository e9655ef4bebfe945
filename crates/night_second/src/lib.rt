// Between the stages of the night: the tests after the first, and the second stage's plan (02, Ask 14).
#![tactic(auto)]

ghost use Rattle.std.specs.Prelude.{◌≡◌, [], ◌∷◌, ◌++◌, ◌+◌, ◌*◌, ◌≤◌, ◌<◌, length, take};
ghost use Rattle.doubles.specs.Limits.{max_rows, max_columns};
ghost use Rattle.lu_packed.specs.Written.{written};
ghost use Rattle.night_rules.specs.Stage.{is_judged};
ghost use Rattle.night_rules.specs.Night.{coefs_at, whole_end, shows_gap, first_beyond, tests_after, first_stands};
ghost use Rattle.night_second.specs.Costed.{costed};

use night_rules::{Audit, NightAnswer, Stage};
use sheet_rules::Verdict;

// Whether a stage's sheet was opened.
pub fn is_judged(a: Audit) -> bool
    ensures { result ≡ is_judged a }
{
    match a {
        Audit::NotRun => false,
        Audit::NotWhole(_) => false,
        Audit::NotOpened(_) => false,
        Audit::Judged(_) => true,
    }
}

fn is_gap(v: Verdict) -> bool
    ensures { result ≡ shows_gap (Audit.Judged v) }
{
    match v {
        Verdict::NoneExists => false,
        Verdict::NotPlan => false,
        Verdict::NoFloor => false,
        Verdict::Gap(_) => true,
        Verdict::Refused(_) => false,
    }
}

fn shows_gap(a: Audit) -> bool
    ensures { result ≡ shows_gap a }
{
    match a {
        Audit::NotRun => false,
        Audit::NotWhole(_) => false,
        Audit::NotOpened(_) => false,
        Audit::Judged(v) => is_gap(v),
    }
}

fn is_no_plan(v: Verdict) -> bool
    ensures { result ≡ first_stands (Audit.Judged v) }
{
    match v {
        Verdict::NoneExists => true,
        Verdict::NotPlan => true,
        Verdict::NoFloor => false,
        Verdict::Gap(_) => false,
        Verdict::Refused(_) => false,
    }
}

// "isn't opened, or says "not a plan" or "none exists"".
pub fn first_stands(a: Audit) -> bool
    ensures { result ≡ first_stands a }
{
    match a {
        Audit::NotRun => true,
        Audit::NotWhole(_) => true,
        Audit::NotOpened(_) => true,
        Audit::Judged(v) => is_no_plan(v),
    }
}

// The first alarm cost over a coefficient's limit, and `columns` where there is none.
fn first_beyond(columns: usize, costs: &[i64]) -> usize
    requires { columns ≤ length costs.now }
    ensures { result ≡ first_beyond (costed 0 columns [] costs.now) }
{
    for (j, &cost) in costs[..columns].iter().enumerate() {
        if sheet_terms::size(cost) > doubles::MAX_COEFFICIENT {
            return j;
        }
    }
    columns
}

// Every test after the first stage, in 02's order.
pub fn tests(
    first: Stage,
    rows: usize,
    columns: usize,
    coefs: &[i64],
    costs: &[i64],
    found: i64,
) -> Option<NightAnswer>
    requires { (rows ≤ max_rows) × (columns ≤ max_columns) × (rows * columns ≤ length coefs.now) ×
        (columns ≤ length costs.now) }
    ensures { result ≡ tests_after first (costed rows columns coefs.now costs.now) found }
{
    let audit = first.audit;
    if !shows_gap(audit) {
        return Some(NightAnswer::NoGap(first));
    }
    if rows >= doubles::MAX_ROWS {
        return Some(NightAnswer::RowsFull(first));
    }
    let some = night_doubles::entries(rows, columns, coefs);
    let costs_too = night_doubles::entries(1, columns, costs);
    if some + costs_too > doubles::MAX_ENTRIES {
        return Some(NightAnswer::EntriesFull(first));
    }
    let j = first_beyond(columns, costs);
    if j != columns {
        return Some(NightAnswer::CostBeyond {
            first: first,
            column: j,
        });
    }
    if sheet_terms::size(found) > doubles::MAX_RIGHT_SIDE {
        return Some(NightAnswer::FoundBeyond(first));
    }
    None
}

// The second stage's coefficients: the plan's, and behind them the alarm costs.
pub fn lay_coefs(rows: usize, columns: usize, coefs: &[i64], costs: &[i64], whole: &mut [i64])
    requires { (rows < max_rows) × (columns ≤ max_columns) × (rows * columns ≤ length coefs.now) ×
        (columns ≤ length costs.now) × (whole_end ≤ length whole.old) }
    ensures { whole.new ≡ written coefs_at (take (rows * columns) coefs.now ++
        take columns costs.now) whole.old }
{
    let cells = rows * columns;
    lu_packed::put(&coefs[..cells], night_rules::COEFS, whole);
    lu_packed::put(&costs[..columns], night_rules::COEFS + cells, whole);
}

// A list of its rows, right sides or comparisons, with the last row's behind them.
pub fn lay<T: Copy>(rows: usize, xs: &[T], last: T, out: &mut [T])
    requires { (rows ≤ length xs.now) × (rows < length out.old) }
    ensures { out.new ≡ written 0 (take rows xs.now ++ (last ∷ [])) out.old }
{
    lu_packed::put(&xs[..rows], 0, out);
    lu_packed::put(&[last], rows, out);
}
