// 02, Ask 9: a column held still, over a plan and the memory that the last call over it left. Any bytes in, the answer
// and every lent cell out.
#![tactic(auto)]

ghost use Rattle.std.specs.Prelude.{◌≡◌};
ghost use Rattle.rules.specs.Parts.{plan_of};
ghost use Rattle.state.specs.Memory.{memory_in, past_of};
ghost use Rattle.fix_rules.specs.Calls.{fix_plan};
ghost use Rattle.fix_ends.specs.Ends.{handed_call, called_by};

// The column is held still at the value: refused, or moved there and marked, and the run goes on.
pub fn fix(
    columns: usize,
    rows: usize,
    entries: usize,
    budget: usize,
    tolerance: f64,
    costs: &[f64],
    lowers: &[f64],
    uppers: &[f64],
    starts: &[usize],
    cols: &[usize],
    coeffs: &[f64],
    ops: &[u8],
    rhs: &[f64],
    values: &mut [f64],
    numbers: &mut [usize],
    doubles: &mut [f64],
    factor_numbers: &mut [usize],
    factor_coeffs: &mut [f64],
    column: usize,
    value: f64,
) -> fix_rules::FixAnswer
    ensures { called_by result values.new numbers.new doubles.new
        factor_numbers.new factor_coeffs.new ≡ handed_call
        (fix_plan (plan_of columns rows entries budget tolerance costs.now lowers.now
        uppers.now starts.now cols.now coeffs.now ops.now
        rhs.now) column value (memory_in values.old numbers.old doubles.old
        factor_numbers.old factor_coeffs.old))
        (past_of numbers.old doubles.old) }
{
    let refusal = fix_gate::fix_refusal(
        columns,
        rows,
        entries,
        budget,
        tolerance,
        costs,
        lowers,
        uppers,
        starts,
        cols,
        coeffs,
        ops,
        rhs,
        values,
        numbers,
        doubles,
        factor_numbers,
        factor_coeffs,
        column,
        value,
    );
    if let Some(answer) = refusal {
        return answer;
    }
    let mut kept = [0usize; doubles::MAX_ROWS];
    let m = plan::keep_rows(rows, starts, &mut kept);
    let at = fix_ends::take_up(m, numbers, doubles, factor_numbers, factor_coeffs);
    let ran = fix_run::fixed(
        &mut numbers[..state::KEPT],
        &mut doubles[..state::OBJECTIVE],
        factor_numbers,
        factor_coeffs,
        at,
        columns,
        budget,
        lowers,
        uppers,
        starts,
        cols,
        coeffs,
        ops,
        &kept[..m],
        column,
        value,
    );
    let why = ran.why;
    fix_rules::FixAnswer::Told(fix_ends::close(
        columns,
        tolerance,
        lowers,
        uppers,
        starts,
        cols,
        coeffs,
        ops,
        rhs,
        &kept[..m],
        why,
        ran.at,
        values,
        numbers,
        doubles,
    ))
}
