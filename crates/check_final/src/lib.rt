// The values of a state, and the final check, which reads them alone. From minilp 0.2.2, src/solver.rs, get_value,
// Apache-2.0, changed: "get_value's reference a value". The final check is ours.
#![tactic(auto)]

ghost use Rattle.std.specs.Prelude.{◌≡◌, ◌<◌, ◌≤◌, ◌+◌, length};
ghost use Rattle.doubles.specs.Limits.{vars};
ghost use Rattle.doubles.specs.Loop.{table};
ghost use Rattle.doubles.specs.Lists.{◌!◌, over};
ghost use Rattle.cells.specs.Bounds.{Sides};
ghost use Rattle.rules.specs.Parts.{bounded};
ghost use Rattle.rules.specs.FinalCheck.{value_of, values_of, counted, beyond, larger, value_excess, row_excess, excess_at, worst, final_check};
ghost use Rattle.check_final.specs.Lent.{valued_of, sizes_of, rows_of, measured_of, checked_of, Placed, Valued, RowReads, Checkable, worse_of};

// The value of variable v, by where it stands.
pub fn get_value(
    n: usize,
    var_states: &[usize],
    basic_var_vals: &[f64],
    nb_var_vals: &[f64],
    v: usize,
) -> f64
    requires { Placed n (valued_of var_states.now basic_var_vals.now nb_var_vals.now) v }
    ensures { result ≡ value_of n (valued_of var_states.now basic_var_vals.now
        nb_var_vals.now) v }
{
    let state = cells::var_state(n, var_states[v]);
    match state {
        rules::VarState::Basic(row) => basic_var_vals[row],
        rules::VarState::NonBasic(col) => nb_var_vals[col],
    }
}

// The columns' values, then those of the kept rows' slacks, over the front of xs.
pub fn values_into(
    n: usize,
    kept: &[usize],
    var_states: &[usize],
    basic_var_vals: &[f64],
    nb_var_vals: &[f64],
    xs: &mut [f64; doubles::VARS],
)
    requires valued { Valued (sizes_of n kept.now) (valued_of var_states.now basic_var_vals.now nb_var_vals.now) }
    requires xs_len { length xs.old ≡ vars }
    ensures { xs.new ≡ over (values_of (sizes_of n kept.now)
        (valued_of var_states.now basic_var_vals.now nb_var_vals.now))
        xs.old }
{
    for v in 0..n + kept.len() {
        xs[v] = get_value(n, var_states, basic_var_vals, nb_var_vals, v);
    }
}

// 02: "a NaN or +inf excess of a finite bound or row, counts as +inf".
fn counted(x: f64) -> f64
    ensures { result ≡ counted x }
{
    if doubles::is_nan(x) {
        return doubles::infinity();
    }
    x
}

// 02: "An infinite bound gives no excess".
fn beyond(bound: f64, x: f64) -> f64
    ensures { result ≡ beyond bound x }
{
    if doubles::is_finite(bound) {
        return counted(x);
    }
    0.0
}

fn larger(x: f64, y: f64) -> f64
    ensures { result ≡ larger x y }
{
    if x < y {
        return y;
    }
    x
}

// 02: "lower - value or value - upper", the larger of the two; "a value that isn't finite … counts as +inf".
fn value_excess(
    n: usize,
    lowers: &[f64],
    uppers: &[f64],
    ops: &[u8],
    kept: &[usize],
    xs: &[f64; doubles::VARS],
    v: usize,
) -> f64
    requires { Sides (bounded n lowers.now uppers.now ops.now kept.now) × (v < n + length kept.now) ×
        (v < vars) }
    ensures { result ≡ value_excess (bounded n lowers.now uppers.now ops.now
        kept.now) xs.now v }
{
    let x = xs[v];
    if doubles::is_finite(x) {
        let min = cells::var_min(n, lowers, ops, kept, v);
        let max = cells::var_max(n, uppers, ops, kept, v);
        return larger(beyond(min, min - x), beyond(max, x - max));
    }
    doubles::infinity()
}

// 01: "the size of rhs - (row sum + slack)", at kept row r.
fn row_excess(
    n: usize,
    starts: &[usize],
    cols: &[usize],
    coeffs: &[f64],
    rhs: &[f64],
    kept: &[usize],
    xs: &[f64; doubles::VARS],
    r: usize,
) -> f64
    requires row_reads { RowReads (rows_of n starts.now cols.now coeffs.now rhs.now kept.now) r }
    requires kept_bound { (n + length kept.now ≤ vars) × (r < length kept.now) }
    ensures { result ≡ row_excess (rows_of n starts.now cols.now coeffs.now
        rhs.now kept.now) xs.now r }
{
    let i = kept[r];
    let at = plan::row_cols(starts, cols, i);
    let sum = sparse::dot(at, plan::row_coeffs(starts, coeffs, i), xs);
    counted(doubles::abs(rhs[i] - (sum + xs[n + r])))
}

// The excess of place k: the values, then the kept rows.
fn excess_at(
    n: usize,
    lowers: &[f64],
    uppers: &[f64],
    starts: &[usize],
    cols: &[usize],
    coeffs: &[f64],
    ops: &[u8],
    rhs: &[f64],
    kept: &[usize],
    xs: &[f64; doubles::VARS],
    k: usize,
) -> f64
    requires { Checkable (measured_of n lowers.now uppers.now starts.now cols.now coeffs.now ops.now
        rhs.now kept.now) × (k < n + length kept.now + length kept.now) }
    ensures { result ≡ excess_at (measured_of n lowers.now uppers.now starts.now
        cols.now coeffs.now ops.now rhs.now kept.now)
        xs.now k }
{
    let count = n + kept.len();
    if k < count {
        return value_excess(n, lowers, uppers, ops, kept, xs, k);
    }
    row_excess(n, starts, cols, coeffs, rhs, kept, xs, k - count)
}

// 02: "first on a tie".
fn worse(k: usize, x: f64, w: rules::Worst) -> rules::Worst
    ensures { result ≡ worse_of k x w }
{
    if w.excess < x {
        return rules::Worst { at: k, excess: x };
    }
    w
}

// 02: "the largest excess over all bounds and rows, with its place, first on a tie, and 0.0 when nothing exceeds 0".
pub fn worst(
    n: usize,
    lowers: &[f64],
    uppers: &[f64],
    starts: &[usize],
    cols: &[usize],
    coeffs: &[f64],
    ops: &[u8],
    rhs: &[f64],
    kept: &[usize],
    xs: &[f64; doubles::VARS],
) -> rules::Worst
    requires { Checkable (measured_of n lowers.now uppers.now starts.now cols.now coeffs.now ops.now
        rhs.now kept.now) }
    ensures { result ≡ worst (measured_of n lowers.now uppers.now starts.now
        cols.now coeffs.now ops.now rhs.now kept.now)
        xs.now }
{
    let places = n + kept.len() + kept.len();
    let mut w = rules::Worst {
        at: places,
        excess: 0.0,
    };
    for k in 0..places {
        w = worse(
            k,
            excess_at(
                n, lowers, uppers, starts, cols, coeffs, ops, rhs, kept, xs, k,
            ),
            w,
        );
    }
    w
}

// 02: "Acceptance is excess <= tol". A rejection names the largest excess's place.
pub fn final_check(
    n: usize,
    tolerance: f64,
    lowers: &[f64],
    uppers: &[f64],
    starts: &[usize],
    cols: &[usize],
    coeffs: &[f64],
    ops: &[u8],
    rhs: &[f64],
    kept: &[usize],
    xs: &[f64; doubles::VARS],
) -> rules::Checked
    requires { Checkable (checked_of n tolerance lowers.now uppers.now starts.now cols.now coeffs.now
        ops.now rhs.now kept.now) }
    ensures { result ≡ final_check (checked_of n tolerance lowers.now uppers.now
        starts.now cols.now coeffs.now ops.now rhs.now
        kept.now) xs.now }
{
    let w = worst(n, lowers, uppers, starts, cols, coeffs, ops, rhs, kept, xs);
    let at = w.at;
    let excess = w.excess;
    if excess <= tolerance {
        return rules::Checked::Passed(excess);
    }
    let count = n + kept.len();
    if at < count {
        return rules::Checked::Value { value: at, excess };
    }
    rules::Checked::Row {
        row: at - count,
        excess,
    }
}

// 01: "Status 0 is Optimal and writes values, slacks last": the first `count` of xs over the front of `values`.
pub fn write_values(values: &mut [f64], xs: &[f64; doubles::VARS], count: usize)
    requires { (count ≤ vars) × (count ≤ length values.old) }
    ensures { values.new ≡ over (table count (λ v. xs.now ! v)) values.old }
{
    values[..count].copy_from_slice(&xs[..count]);
}
