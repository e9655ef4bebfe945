// Other costs over the memory of a run, and a solve from any start, for C and Rust.
#![tactic(auto)]

ghost use Rattle.std.specs.Prelude.{◌≡◌};
ghost use Rattle.rules.specs.Parts.{plan_of};
ghost use Rattle.state.specs.Memory.{memory_in, past_of};
ghost use Rattle.face.specs.Face.{faced};
ghost use Rattle.fix_ends.specs.Ends.{handed_call};
ghost use Rattle.fix_face.specs.Numbers.{faced_by_call};
ghost use Rattle.reprice_rules.specs.Calls.{reprice_plan};
ghost use Rattle.reprice_rules.specs.Any.{any_plan};
ghost use Rattle.any_face.specs.Numbers as AnyNumbers;

use any_face::TevalumiAnyAnswer;

#[unsafe(no_mangle)]
pub extern "C" fn tevalumi_reprice(
    columns: usize,
    rows: usize,
    entries: usize,
    budget: usize,
    tolerance: f64,
    costs: &[f64],
    lowers: &[f64],
    uppers: &[f64],
    starts: &[usize],
    cols: &[usize],
    coeffs: &[f64],
    ops: &[u8],
    rhs: &[f64],
    values: &mut [f64],
    numbers: &mut [usize],
    doubles: &mut [f64],
    factor_numbers: &mut [usize],
    factor_coeffs: &mut [f64],
) -> face::TevalumiAnswer
    ensures { faced result values.new numbers.new doubles.new
        factor_numbers.new factor_coeffs.new ≡ faced_by_call
        (handed_call (reprice_plan (plan_of columns rows entries budget tolerance costs.now
        lowers.now uppers.now starts.now cols.now coeffs.now
        ops.now rhs.now) (memory_in values.old numbers.old
        doubles.old factor_numbers.old factor_coeffs.old))
        (past_of numbers.old doubles.old)) }
{
    let a = reprice::reprice(
        columns,
        rows,
        entries,
        budget,
        tolerance,
        costs,
        lowers,
        uppers,
        starts,
        cols,
        coeffs,
        ops,
        rhs,
        values,
        numbers,
        doubles,
        factor_numbers,
        factor_coeffs,
    );
    fix_face::fix_answer(a)
}

#[unsafe(no_mangle)]
pub extern "C" fn tevalumi_solve_any(
    columns: usize,
    rows: usize,
    entries: usize,
    budget: usize,
    tolerance: f64,
    costs: &[f64],
    lowers: &[f64],
    uppers: &[f64],
    starts: &[usize],
    cols: &[usize],
    coeffs: &[f64],
    ops: &[u8],
    rhs: &[f64],
    values: &mut [f64],
    numbers: &mut [usize],
    doubles: &mut [f64],
    factor_numbers: &mut [usize],
    factor_coeffs: &mut [f64],
) -> TevalumiAnyAnswer
    ensures { AnyNumbers.faced result values.new numbers.new doubles.new
        factor_numbers.new factor_coeffs.new ≡ AnyNumbers.faced_by
        (any_plan (plan_of columns rows entries budget tolerance costs.now lowers.now
        uppers.now starts.now cols.now coeffs.now ops.now
        rhs.now) (memory_in values.old numbers.old doubles.old
        factor_numbers.old factor_coeffs.old))
        (past_of numbers.old doubles.old) }
{
    let a = any::solve_any(
        columns,
        rows,
        entries,
        budget,
        tolerance,
        costs,
        lowers,
        uppers,
        starts,
        cols,
        coeffs,
        ops,
        rhs,
        values,
        numbers,
        doubles,
        factor_numbers,
        factor_coeffs,
    );
    TevalumiAnyAnswer::from(a)
}
