// The solver's public call: any bytes in, the answer of 01 and every lent cell out.
#![tactic(auto)]

ghost use Rattle.std.specs.Prelude.{◌≡◌};
ghost use Rattle.rules.specs.Parts.{plan_of};
ghost use Rattle.rules.specs.Solve.{solve_plan};
ghost use Rattle.state.specs.Memory.{memory_in, past_of, handed, answered};

// Refusals 1 to 7 change nothing: their numbers are reckoned here, in scratch. Then the run, and the end.
pub fn solve(
    columns: usize,
    rows: usize,
    entries: usize,
    budget: usize,
    tolerance: f64,
    costs: &[f64],
    lowers: &[f64],
    uppers: &[f64],
    starts: &[usize],
    cols: &[usize],
    coeffs: &[f64],
    ops: &[u8],
    rhs: &[f64],
    values: &mut [f64],
    numbers: &mut [usize],
    doubles: &mut [f64],
    factor_numbers: &mut [usize],
    factor_coeffs: &mut [f64],
) -> rules::Answer
    ensures { answered result values.new numbers.new doubles.new
        factor_numbers.new factor_coeffs.new ≡ handed
        (solve_plan (plan_of columns rows entries budget tolerance costs.now lowers.now
        uppers.now starts.now cols.now coeffs.now ops.now
        rhs.now) (memory_in values.old numbers.old doubles.old
        factor_numbers.old factor_coeffs.old))
        (past_of numbers.old doubles.old) }
{
    let refusal = start_gate::refusal(
        columns,
        rows,
        entries,
        budget,
        tolerance,
        costs,
        lowers,
        uppers,
        starts,
        cols,
        coeffs,
        ops,
        rhs,
        values,
        numbers,
        doubles,
        factor_numbers,
        factor_coeffs,
    );
    if let Some(answer) = refusal {
        return answer;
    }
    let mut kept = [0usize; doubles::MAX_ROWS];
    let m = plan::keep_rows(rows, starts, &mut kept);
    let mut xs = [0.0; doubles::MAX_COLUMNS];
    let mut slacks = [0.0; doubles::MAX_ROWS];
    let mut norms = [0.0; doubles::MAX_COLUMNS];
    let begun = start_gate::begin(
        columns,
        costs,
        lowers,
        uppers,
        starts,
        cols,
        coeffs,
        ops,
        rhs,
        &kept[..m],
        &mut xs,
        &mut slacks,
        &mut norms,
    );
    match begun {
        Err(answer) => answer,
        Ok(start) => {
            let ran = run_launch::launch(
                &mut numbers[..state::KEPT],
                &mut doubles[..state::OBJECTIVE],
                factor_numbers,
                factor_coeffs,
                columns,
                budget,
                costs,
                lowers,
                uppers,
                starts,
                cols,
                coeffs,
                ops,
                &kept[..m],
                &xs,
                &slacks,
                &norms,
                start,
            );
            let why = ran.why;
            check_close::close(
                columns,
                tolerance,
                lowers,
                uppers,
                starts,
                cols,
                coeffs,
                ops,
                rhs,
                &kept[..m],
                why,
                ran.at,
                values,
                numbers,
                doubles,
            )
        }
    }
}
