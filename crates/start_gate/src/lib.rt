// 01, "When the gateway says no": what is lent is long enough, and refusals 1 to 7 before the first lent cell is
// written.
#![tactic(auto)]

ghost use Rattle.std.specs.Prelude.{◌≡◌, [], ◌≤◌, length};
ghost use Rattle.doubles.specs.Num.{f0};
ghost use Rattle.doubles.specs.Limits.{max_columns, max_rows};
ghost use Rattle.rules.specs.Parts.{plan_of, problem};
ghost use Rattle.rules.specs.Refusals.{memory_long};
ghost use Rattle.state.specs.Memory.{memory_in};
ghost use Rattle.start.specs.Lent.{Scratch};
ghost use Rattle.start.specs.Reckoned.{numbers};
ghost use Rattle.start_gate.specs.Lent.{Passed};
ghost use Rattle.start_gate.specs.Gate.{refusal_by, begun, begun_by};

// 1: "Needed are columns plus rows of values, dropped rows counted, and the full stated store", and the factor's two
// arrays: each whole, whatever the plan's sizes. Those are small by then, so that they may be added.
pub fn memory_long(
    columns: usize,
    rows: usize,
    values: &[f64],
    numbers: &[usize],
    doubles: &[f64],
    factor_numbers: &[usize],
    factor_coeffs: &[f64],
) -> bool
    requires { (columns ≤ max_columns) × (rows ≤ max_rows) }
    ensures { result ≡ memory_long (plan_of columns rows 0 0 f0 [] [] [] [] [] [] [] [])
        (memory_in values.now numbers.now doubles.now factor_numbers.now
        factor_coeffs.now) }
{
    (columns + rows <= values.len())
        & (state::NUMBERS <= numbers.len())
        & (state::DOUBLES <= doubles.len())
        & (lu_factor_rules::FACTOR_NUMBERS <= factor_numbers.len())
        & (lu_factor_rules::FACTOR_COEFFS <= factor_coeffs.len())
}

// 1 to 5. Any sizes and any arrays: "Sizes are tested before any cell is read".
pub fn refusal(
    columns: usize,
    rows: usize,
    entries: usize,
    budget: usize,
    tolerance: f64,
    costs: &[f64],
    lowers: &[f64],
    uppers: &[f64],
    starts: &[usize],
    cols: &[usize],
    coeffs: &[f64],
    ops: &[u8],
    rhs: &[f64],
    values: &[f64],
    numbers: &[usize],
    doubles: &[f64],
    factor_numbers: &[usize],
    factor_coeffs: &[f64],
) -> Option<rules::Answer>
    ensures { result ≡ refusal_by (plan_of columns rows entries budget tolerance costs.now
        lowers.now uppers.now starts.now cols.now coeffs.now
        ops.now rhs.now) (memory_in values.now numbers.now
        doubles.now factor_numbers.now factor_coeffs.now) }
{
    if !plan::sizes_fit(columns, rows, entries, budget) {
        return Some(rules::Answer::BadSize);
    }
    if !plan::plan_long(
        columns, rows, entries, costs, lowers, uppers, starts, cols, coeffs, ops, rhs,
    ) {
        return Some(rules::Answer::BadSize);
    }
    if !memory_long(
        columns,
        rows,
        values,
        numbers,
        doubles,
        factor_numbers,
        factor_coeffs,
    ) {
        return Some(rules::Answer::BadSize);
    }
    plan::first_refusal(
        columns, rows, entries, tolerance, costs, lowers, uppers, starts, cols, coeffs, ops, rhs,
    )
}

// 6 and 7, from the start's numbers. 02, Ask 8: 7 is given only where the start isn't dual feasible. What is lent to be
// written is the caller's scratch.
pub fn begin(
    columns: usize,
    costs: &[f64],
    lowers: &[f64],
    uppers: &[f64],
    starts: &[usize],
    cols: &[usize],
    coeffs: &[f64],
    ops: &[u8],
    rhs: &[f64],
    kept: &[usize],
    xs: &mut [f64; doubles::MAX_COLUMNS],
    slacks: &mut [f64; doubles::MAX_ROWS],
    norms: &mut [f64; doubles::MAX_COLUMNS],
) -> Result<f64, rules::Answer>
    requires passed { Passed columns costs.now lowers.now uppers.now starts.now cols.now coeffs.now ops.now
        rhs.now kept.now }
    requires scratch { Scratch columns (length kept.now) xs.old slacks.old norms.old }
    ensures { begun_by result xs.new slacks.new norms.new ≡ begun
        (problem (plan_of columns 0 0 0 f0 costs.now lowers.now uppers.now
        starts.now cols.now coeffs.now ops.now rhs.now)
        kept.now) (numbers xs.old slacks.old norms.old f0) }
{
    let objective = start::reckon(
        columns, costs, lowers, uppers, starts, cols, coeffs, rhs, kept, xs, slacks, norms,
    );
    if !start::passes_6(columns, kept.len(), xs, slacks, objective, norms) {
        return Err(rules::Answer::StartNotFinite);
    }
    if !(start::passes_7(ops, kept, slacks)
        | start_values::dual_feasible(costs, lowers, uppers, columns))
    {
        return Err(rules::Answer::SlackOutside);
    }
    Ok(objective)
}
