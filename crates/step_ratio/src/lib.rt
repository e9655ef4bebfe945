// The ratio of a step: Harris' two passes over the entering column's rows.
// From minilp 0.2.2, src/solver.rs, choose_pivot, Apache-2.0, changed: 01's answers 20 and 23, and no
// row whose bound ahead is infinite. The bounds of a basic variable are looked up, once in each pass.
#![tactic(auto)]

ghost use Rattle.std.specs.Prelude.{◌≡◌, Bool, List, [], ◌<◌, ◌+◌, length};
ghost use Rattle.doubles.specs.Lists.{◌#◌};
ghost use Rattle.sparse.specs.Scattered.{sv};
ghost use Rattle.rules.specs.Parts.{bounded, workspace_of, no_etas};
ghost use Rattle.rules.specs.Ratio.{towards_max, limit_by, pass_two};
ghost use Rattle.rules.specs.Ratio as Ratio;
ghost use Rattle.cells.specs.Bounds.{Sides};
ghost use Rattle.step_ratio.specs.Lent.{basic_of, Rows, Passing, Stepping};
ghost use Rattle.step_ratio.specs.Parts.{room_of, shrunk, max_step_of, taken, leaving_by, pivot_by};

// Whether the entering variable rises.
fn rises(e: rules::Entering) -> bool
    ensures { result ≡ Ratio.rises e }
{
    e.price < 0.0
}

// `leaving_diff = -entering_diff * coeff`: whether a row with coefficient a moves towards its upper bound.
fn towards_max(up: bool, a: f64) -> bool
    ensures { result ≡ towards_max up a }
{
    (up & (a < 0.0)) | (!up & (0.0 < a))
}

// The bound ahead of row r.
fn ahead(
    n: usize,
    lowers: &[f64],
    uppers: &[f64],
    ops: &[u8],
    kept: &[usize],
    basic_vars: &[usize],
    up: bool,
    r: usize,
    a: f64,
) -> f64
    requires sides { Sides (bounded n lowers.now uppers.now ops.now kept.now) × (r < length basic_vars.now) }
    requires r_bound { basic_vars.now # r < n + length kept.now }
    ensures { result ≡ Ratio.ahead (bounded n lowers.now uppers.now ops.now
        kept.now) (basic_of basic_vars.now []) up r a }
{
    step_choose::side(
        n,
        lowers,
        uppers,
        ops,
        kept,
        towards_max(up, a),
        basic_vars[r],
    )
}

// How far a value is from the bound that it moves to.
fn limit(max: bool, bound: f64, val: f64) -> f64
    ensures { result ≡ limit_by max bound val }
{
    if max {
        if val < bound {
            return bound - val;
        }
        return 0.0;
    }
    if bound < val {
        return val - bound;
    }
    0.0
}

// The room of a row, and None, so that none is asked, where its coefficient is small or the bound ahead infinite.
// 01: "coefficients under EPS in size are skipped"; "a row with an infinite bound ahead is no candidate".
fn room_ahead(
    n: usize,
    lowers: &[f64],
    uppers: &[f64],
    ops: &[u8],
    kept: &[usize],
    basic_vars: &[usize],
    basic_var_vals: &[f64],
    up: bool,
    r: usize,
    a: f64,
) -> Option<f64>
    requires sides { Sides (bounded n lowers.now uppers.now ops.now kept.now) × (r < length kept.now) }
    requires rows { Rows (bounded n lowers.now uppers.now ops.now kept.now)
        (basic_of basic_vars.now basic_var_vals.now) }
    ensures { result ≡ room_of (bounded n lowers.now uppers.now ops.now
        kept.now) (basic_of basic_vars.now basic_var_vals.now) up r a }
{
    if doubles::under_eps(a) {
        return None;
    }
    let max = towards_max(up, a);
    let bound = step_choose::side(n, lowers, uppers, ops, kept, max, basic_vars[r]);
    if doubles::is_infinite(bound) {
        return None;
    }
    Some(limit(max, bound, basic_var_vals[r]))
}

// 01: "Pass one uses (limit + EPS) / size against the distance, strictly smaller"; "A finite bound whose
// limit or quotient isn't finite gives 23", here None: where this quotient is finite, so are limit and
// limit / size.
fn shrink(
    n: usize,
    lowers: &[f64],
    uppers: &[f64],
    ops: &[u8],
    kept: &[usize],
    basic_vars: &[usize],
    basic_var_vals: &[f64],
    up: bool,
    r: usize,
    a: f64,
    step: f64,
) -> Option<f64>
    requires sides { Sides (bounded n lowers.now uppers.now ops.now kept.now) × (r < length kept.now) }
    requires rows { Rows (bounded n lowers.now uppers.now ops.now kept.now)
        (basic_of basic_vars.now basic_var_vals.now) }
    ensures { result ≡ shrunk (bounded n lowers.now uppers.now ops.now
        kept.now) (basic_of basic_vars.now basic_var_vals.now) up r a step }
{
    let Some(limit) = room_ahead(
        n,
        lowers,
        uppers,
        ops,
        kept,
        basic_vars,
        basic_var_vals,
        up,
        r,
        a,
    ) else {
        return Some(step);
    };
    let quotient = (limit + doubles::EPS) / doubles::abs(a);
    if doubles::is_finite(quotient) {
        if quotient < step {
            return Some(quotient);
        }
        return Some(step);
    }
    None
}

// 01: "The entering column travels with its price, score and distance": from the choice to both passes. Pass one
// starts from its distance.
fn pass_one(
    e: rules::Entering,
    n: usize,
    lowers: &[f64],
    uppers: &[f64],
    ops: &[u8],
    kept: &[usize],
    basic_vars: &[usize],
    basic_var_vals: &[f64],
    values: &[f64; doubles::PLACES],
    list: &[usize; doubles::PLACES],
    count: usize,
) -> Option<f64>
    requires { Passing (bounded n lowers.now uppers.now ops.now kept.now)
        (basic_of basic_vars.now basic_var_vals.now) list.now count }
    ensures { (m : List Bool) → result ≡ max_step_of
        (bounded n lowers.now uppers.now ops.now kept.now)
        (basic_of basic_vars.now basic_var_vals.now) (Ratio.rises e)
        (sv values.now m list.now count) e.distance }
{
    let up = rises(e);
    let mut step = e.distance;
    for &r in &list[..count] {
        step = shrink(
            n,
            lowers,
            uppers,
            ops,
            kept,
            basic_vars,
            basic_var_vals,
            up,
            r,
            values[r],
            step,
        )?;
    }
    Some(step)
}

// 01: "Pass two takes step <= max_step, strictly largest size". The size is asked first: most rows are
// settled without a division.
fn takes(
    n: usize,
    lowers: &[f64],
    uppers: &[f64],
    ops: &[u8],
    kept: &[usize],
    basic_vars: &[usize],
    basic_var_vals: &[f64],
    up: bool,
    r: usize,
    a: f64,
    max_step: f64,
    best: f64,
) -> bool
    requires sides { Sides (bounded n lowers.now uppers.now ops.now kept.now) × (r < length kept.now) }
    requires rows { Rows (bounded n lowers.now uppers.now ops.now kept.now)
        (basic_of basic_vars.now basic_var_vals.now) }
    ensures { result ≡ taken (bounded n lowers.now uppers.now ops.now
        kept.now) (basic_of basic_vars.now basic_var_vals.now) up r a max_step
        best }
{
    let size = doubles::abs(a);
    if best < size {
        let Some(limit) = room_ahead(
            n,
            lowers,
            uppers,
            ops,
            kept,
            basic_vars,
            basic_var_vals,
            up,
            r,
            a,
        ) else {
            return false;
        };
        return limit / size <= max_step;
    }
    false
}

// The place of the leaving row in the list, and `count` where there is none.
fn pass_two(
    e: rules::Entering,
    n: usize,
    lowers: &[f64],
    uppers: &[f64],
    ops: &[u8],
    kept: &[usize],
    basic_vars: &[usize],
    basic_var_vals: &[f64],
    values: &[f64; doubles::PLACES],
    list: &[usize; doubles::PLACES],
    count: usize,
    max_step: f64,
) -> usize
    requires { Passing (bounded n lowers.now uppers.now ops.now kept.now)
        (basic_of basic_vars.now basic_var_vals.now) list.now count }
    ensures { (m : List Bool) → result ≡ (pass_two
        (bounded n lowers.now uppers.now ops.now kept.now)
        (basic_of basic_vars.now basic_var_vals.now) (Ratio.rises e)
        (sv values.now m list.now count) max_step).at }
{
    let up = rises(e);
    let mut at = count;
    let mut best = -doubles::infinity();
    for (k, &r) in list[..count].iter().enumerate() {
        let a = values[r];
        if takes(
            n,
            lowers,
            uppers,
            ops,
            kept,
            basic_vars,
            basic_var_vals,
            up,
            r,
            a,
            max_step,
            best,
        ) {
            at = k;
            best = doubles::abs(a);
        }
    }
    at
}

// What the two passes find: a place of the list, `count` where no row leaves; None is 23.
fn leaving_row(
    e: rules::Entering,
    n: usize,
    lowers: &[f64],
    uppers: &[f64],
    ops: &[u8],
    kept: &[usize],
    basic_vars: &[usize],
    basic_var_vals: &[f64],
    values: &[f64; doubles::PLACES],
    list: &[usize; doubles::PLACES],
    count: usize,
) -> Option<usize>
    requires { Passing (bounded n lowers.now uppers.now ops.now kept.now)
        (basic_of basic_vars.now basic_var_vals.now) list.now count }
    ensures { (m : List Bool) → result ≡ leaving_by
        (bounded n lowers.now uppers.now ops.now kept.now)
        (basic_of basic_vars.now basic_var_vals.now) (Ratio.rises e)
        (sv values.now m list.now count) e.distance }
{
    let step = pass_one(
        e,
        n,
        lowers,
        uppers,
        ops,
        kept,
        basic_vars,
        basic_var_vals,
        values,
        list,
        count,
    )?;
    Some(pass_two(
        e,
        n,
        lowers,
        uppers,
        ops,
        kept,
        basic_vars,
        basic_var_vals,
        values,
        list,
        count,
        step,
    ))
}

// 01: "A step is a flip, with its new value and difference, or an exchange, which adds row, pivot and
// leaving value"; "Unbounded is given exactly when no row is a candidate and the entering column's other
// bound is infinite".
fn pivot_by(
    e: rules::Entering,
    n: usize,
    lowers: &[f64],
    uppers: &[f64],
    ops: &[u8],
    kept: &[usize],
    basic_vars: &[usize],
    basic_var_vals: &[f64],
    nb_var_vals: &[f64],
    values: &[f64; doubles::PLACES],
    list: &[usize; doubles::PLACES],
    count: usize,
    other: f64,
    at: usize,
) -> rules::Ratio
    requires passing { Passing (bounded n lowers.now uppers.now ops.now kept.now)
        (basic_of basic_vars.now basic_var_vals.now) list.now count }
    requires col_in_bounds { e.col < length nb_var_vals.now }
    ensures { (m : List Bool) → result ≡ pivot_by
        (bounded n lowers.now uppers.now ops.now kept.now)
        (workspace_of basic_vars.now basic_var_vals.now [] nb_var_vals.now [] []
        [] [] [] no_etas) e (sv values.now m list.now count) other at }
{
    let col = e.col;
    let up = rises(e);
    if at < count {
        let row = list[at];
        let pivot = values[row];
        let leaving = ahead(n, lowers, uppers, ops, kept, basic_vars, up, row, pivot);
        let diff = (basic_var_vals[row] - leaving) / pivot;
        let value = nb_var_vals[col] + diff;
        let p = rules::PivotInfo::Exchange {
            value,
            diff,
            row,
            pivot,
            leaving,
        };
        return rules::Ratio::Pivot(p);
    }
    if doubles::is_infinite(other) {
        return rules::Ratio::Unbounded;
    }
    let diff = other - nb_var_vals[col];
    rules::Ratio::Pivot(rules::PivotInfo::Flip { value: other, diff })
}

// 01: "A finite bound whose limit or quotient isn't finite gives 23, as does a finite other bound whose
// distance isn't finite, both in the ratio".
pub fn ratio(
    e: rules::Entering,
    n: usize,
    lowers: &[f64],
    uppers: &[f64],
    ops: &[u8],
    kept: &[usize],
    basic_vars: &[usize],
    basic_var_vals: &[f64],
    nb_vars: &[usize],
    nb_var_vals: &[f64],
    prices: &[f64],
    values: &[f64; doubles::PLACES],
    list: &[usize; doubles::PLACES],
    count: usize,
) -> rules::Ratio
    requires { Stepping (bounded n lowers.now uppers.now ops.now kept.now)
        (workspace_of basic_vars.now basic_var_vals.now nb_vars.now nb_var_vals.now prices.now [] [] []
        [] no_etas) e list.now count }
    ensures { (m : List Bool) → result ≡ Ratio.ratio
        (bounded n lowers.now uppers.now ops.now kept.now)
        (workspace_of basic_vars.now basic_var_vals.now nb_vars.now
        nb_var_vals.now prices.now [] [] [] [] no_etas) e
        (sv values.now m list.now count) }
{
    let col = e.col;
    let other = step_choose::other_val(n, lowers, uppers, ops, kept, nb_vars, prices, col);
    if !(doubles::is_infinite(other) | doubles::is_finite(e.distance)) {
        return rules::Ratio::NotFinite;
    }
    let Some(at) = leaving_row(
        e,
        n,
        lowers,
        uppers,
        ops,
        kept,
        basic_vars,
        basic_var_vals,
        values,
        list,
        count,
    ) else {
        return rules::Ratio::NotFinite;
    };
    pivot_by(
        e,
        n,
        lowers,
        uppers,
        ops,
        kept,
        basic_vars,
        basic_var_vals,
        nb_var_vals,
        values,
        list,
        count,
        other,
        at,
    )
}
