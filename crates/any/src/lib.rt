// A solve from any start: `solve`; on 7, `solve` with costs 0, and where that is Optimal `reprice` with the plan's own
// costs. The answer says which way it took.
#![tactic(auto)]

ghost use Rattle.std.specs.Prelude.{◌≡◌};
ghost use Rattle.rules.specs.Parts.{plan_of};
ghost use Rattle.rules.specs.Solve.{solve_plan};
ghost use Rattle.state.specs.Memory.{memory_in, past_of};
ghost use Rattle.reprice_rules.specs.Any.{costless, then_reprice, any_plan};
ghost use Rattle.any.specs.Handed.{handed_any, any_by};

// Behind 7: the run with costs 0, and the plan's own costs over the basis that an Optimal one left.
fn from_costless(
    columns: usize,
    rows: usize,
    entries: usize,
    budget: usize,
    tolerance: f64,
    costs: &[f64],
    lowers: &[f64],
    uppers: &[f64],
    starts: &[usize],
    cols: &[usize],
    coeffs: &[f64],
    ops: &[u8],
    rhs: &[f64],
    values: &mut [f64],
    numbers: &mut [usize],
    doubles: &mut [f64],
    factor_numbers: &mut [usize],
    factor_coeffs: &mut [f64],
) -> reprice_rules::AnyAnswer
    ensures { any_by result values.new numbers.new doubles.new
        factor_numbers.new factor_coeffs.new ≡ handed_any
        (then_reprice (plan_of columns rows entries budget tolerance costs.now lowers.now
        uppers.now starts.now cols.now coeffs.now ops.now
        rhs.now) (solve_plan (costless (plan_of columns rows entries budget tolerance costs.now
        lowers.now uppers.now starts.now cols.now coeffs.now
        ops.now rhs.now)) (memory_in values.old numbers.old
        doubles.old factor_numbers.old factor_coeffs.old)))
        (past_of numbers.old doubles.old) }
{
    let zeros = [0.0; doubles::MAX_COLUMNS];
    let told = solve::solve(
        columns,
        rows,
        entries,
        budget,
        tolerance,
        &zeros,
        lowers,
        uppers,
        starts,
        cols,
        coeffs,
        ops,
        rhs,
        values,
        numbers,
        doubles,
        factor_numbers,
        factor_coeffs,
    );
    let rules::Answer::Optimal {
        objective: _,
        steps,
        excess: _,
    } = told
    else {
        return reprice_rules::AnyAnswer::Halted(told);
    };
    let answer = reprice::reprice(
        columns,
        rows,
        entries,
        budget,
        tolerance,
        costs,
        lowers,
        uppers,
        starts,
        cols,
        coeffs,
        ops,
        rhs,
        values,
        numbers,
        doubles,
        factor_numbers,
        factor_coeffs,
    );
    reprice_rules::AnyAnswer::Repriced { steps, answer }
}

pub fn solve_any(
    columns: usize,
    rows: usize,
    entries: usize,
    budget: usize,
    tolerance: f64,
    costs: &[f64],
    lowers: &[f64],
    uppers: &[f64],
    starts: &[usize],
    cols: &[usize],
    coeffs: &[f64],
    ops: &[u8],
    rhs: &[f64],
    values: &mut [f64],
    numbers: &mut [usize],
    doubles: &mut [f64],
    factor_numbers: &mut [usize],
    factor_coeffs: &mut [f64],
) -> reprice_rules::AnyAnswer
    ensures { any_by result values.new numbers.new doubles.new
        factor_numbers.new factor_coeffs.new ≡ handed_any
        (any_plan (plan_of columns rows entries budget tolerance costs.now lowers.now
        uppers.now starts.now cols.now coeffs.now ops.now
        rhs.now) (memory_in values.old numbers.old doubles.old
        factor_numbers.old factor_coeffs.old))
        (past_of numbers.old doubles.old) }
{
    let told = solve::solve(
        columns,
        rows,
        entries,
        budget,
        tolerance,
        costs,
        lowers,
        uppers,
        starts,
        cols,
        coeffs,
        ops,
        rhs,
        values,
        numbers,
        doubles,
        factor_numbers,
        factor_coeffs,
    );
    if check_close::number_of(told) != 7 {
        return reprice_rules::AnyAnswer::Direct(told);
    }
    from_costless(
        columns,
        rows,
        entries,
        budget,
        tolerance,
        costs,
        lowers,
        uppers,
        starts,
        cols,
        coeffs,
        ops,
        rhs,
        values,
        numbers,
        doubles,
        factor_numbers,
        factor_coeffs,
    )
}
