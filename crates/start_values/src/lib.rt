// 01, "Start": the columns' start values, their objective, the slacks that they leave, and whether the start is dual
// feasible. From minilp 0.2.2, src/solver.rs, try_new, Apache-2.0, changed: 01's rules, one function for each number,
// lent arrays.
#![tactic(auto)]

ghost use Rattle.std.specs.Prelude.{◌≡◌, ◌&&◌, [], ◌<◌, ◌≤◌, length};
ghost use Rattle.doubles.specs.Num.{infinite};
ghost use Rattle.doubles.specs.Limits.{max_columns, max_rows};
ghost use Rattle.doubles.specs.Loop.{table};
ghost use Rattle.doubles.specs.Lists.{over};
ghost use Rattle.sparse.specs.Scattered.{Within};
ghost use Rattle.rules.specs.Parts.{rowed};
ghost use Rattle.rules.specs.Start.{lower_first, upper_first, start_val, start_dual, start_vals, dual_feasible, start_objective, start_slack};
ghost use Rattle.plan.specs.Kept.{RowReads, RowsRead};
ghost use Rattle.start_values.specs.Lent.{costed, sided, Columns};

// "Free: 0.0"
fn is_free(lower: f64, upper: f64) -> bool
    ensures { result ≡ infinite lower && infinite upper }
{
    doubles::is_infinite(lower) & doubles::is_infinite(upper)
}

fn lower_first(lower: f64, upper: f64) -> f64
    ensures { result ≡ lower_first lower upper }
{
    if doubles::is_finite(lower) {
        return lower;
    }
    upper
}

fn upper_first(lower: f64, upper: f64) -> f64
    ensures { result ≡ upper_first lower upper }
{
    if doubles::is_finite(upper) {
        return upper;
    }
    lower
}

// 01: "Fixed: that value. Free: 0.0. Positive cost: lower if finite, else upper. Negative: upper if finite, else lower.
// Zero cost: lower if finite, else upper."
pub fn start_val(cost: f64, lower: f64, upper: f64) -> f64
    ensures { result ≡ start_val cost lower upper }
{
    if lower == upper {
        return lower;
    }
    if is_free(lower, upper) {
        return 0.0;
    }
    if cost < 0.0 {
        return upper_first(lower, upper);
    }
    lower_first(lower, upper)
}

// is_dual_feasible of try_new, for one column
pub fn start_dual(cost: f64, lower: f64, upper: f64) -> bool
    ensures { result ≡ start_dual cost lower upper }
{
    if lower == upper {
        return true;
    }
    if is_free(lower, upper) {
        return cost == 0.0;
    }
    if 0.0 < cost {
        return doubles::is_finite(lower);
    }
    if cost < 0.0 {
        return doubles::is_finite(upper);
    }
    true
}

// The start values of the columns, over the front of the scratch.
pub fn start_vals(
    costs: &[f64],
    lowers: &[f64],
    uppers: &[f64],
    n: usize,
    xs: &mut [f64; doubles::MAX_COLUMNS],
)
    requires { (n ≤ max_columns) × (n ≤ length xs.old) × Columns n costs.now lowers.now uppers.now }
    ensures { xs.new ≡ over (start_vals
        (costed n costs.now lowers.now uppers.now)) xs.old }
{
    for j in 0..n {
        xs[j] = start_val(costs[j], lowers[j], uppers[j]);
    }
}

pub fn dual_feasible(costs: &[f64], lowers: &[f64], uppers: &[f64], n: usize) -> bool
    requires { Columns n costs.now lowers.now uppers.now }
    ensures { result ≡ dual_feasible (costed n costs.now lowers.now uppers.now) }
{
    for j in 0..n {
        if !start_dual(costs[j], lowers[j], uppers[j]) {
            return false;
        }
    }
    true
}

// 01: "Sums start at 0.0 and follow entry or listed order".
pub fn start_objective(costs: &[f64], n: usize, xs: &[f64; doubles::MAX_COLUMNS]) -> f64
    requires { (n ≤ max_columns) × (n ≤ length costs.now) }
    ensures { result ≡ start_objective (costed n costs.now [] []) xs.now }
{
    let mut sum = 0.0;
    for j in 0..n {
        sum = sum + xs[j] * costs[j];
    }
    sum
}

// The value of kept row r's slack.
fn start_slack(
    starts: &[usize],
    cols: &[usize],
    coeffs: &[f64],
    rhs: &[f64],
    kept: &[usize],
    xs: &[f64; doubles::MAX_COLUMNS],
    r: usize,
) -> f64
    requires r_in_bounds { (r < length kept.now) × Within (length rhs.now) (length kept.now) kept.now }
    requires row_reads { RowReads (rowed 0 starts.now cols.now coeffs.now kept.now) (length xs.now) r }
    ensures { result ≡ start_slack (sided starts.now cols.now coeffs.now
        rhs.now kept.now) xs.now r }
{
    let i = kept[r];
    let row_cols = plan::row_cols(starts, cols, i);
    let row_coeffs = plan::row_coeffs(starts, coeffs, i);
    rhs[i] - sparse::dot(row_cols, row_coeffs, xs)
}

// The slacks of the kept rows, over the front of the scratch.
pub fn start_slacks(
    starts: &[usize],
    cols: &[usize],
    coeffs: &[f64],
    rhs: &[f64],
    kept: &[usize],
    xs: &[f64; doubles::MAX_COLUMNS],
    slacks: &mut [f64; doubles::MAX_ROWS],
)
    requires kept_len_bound { (length kept.now ≤ max_rows) × (length kept.now ≤ length slacks.old) × Within (length rhs.now)
        (length kept.now) kept.now }
    requires rows_read { RowsRead (rowed 0 starts.now cols.now coeffs.now kept.now) (length xs.now) }
    ensures { slacks.new ≡ over (table (length kept.now)
        (start_slack (sided starts.now cols.now coeffs.now rhs.now
        kept.now) xs.now)) slacks.old }
{
    for r in 0..kept.len() {
        slacks[r] = start_slack(starts, cols, coeffs, rhs, kept, xs, r);
    }
}
