// The solver, for C and Rust.
#![tactic(auto)]

ghost use Rattle.std.specs.Prelude.{◌≡◌};
ghost use Rattle.rules.specs.Parts.{plan_of};
ghost use Rattle.rules.specs.Solve.{solve_plan};
ghost use Rattle.state.specs.Memory.{memory_in, past_of, handed};
ghost use Rattle.face.specs.Face.{faced, faced_by};

mod fixes;

use face::TevalumiAnswer;

#[unsafe(no_mangle)]
pub extern "C" fn tevalumi_solve(
    columns: usize,
    rows: usize,
    entries: usize,
    budget: usize,
    tolerance: f64,
    costs: &[f64],
    lowers: &[f64],
    uppers: &[f64],
    starts: &[usize],
    cols: &[usize],
    coeffs: &[f64],
    ops: &[u8],
    rhs: &[f64],
    values: &mut [f64],
    numbers: &mut [usize],
    doubles: &mut [f64],
    factor_numbers: &mut [usize],
    factor_coeffs: &mut [f64],
) -> TevalumiAnswer
    ensures { faced result values.new numbers.new doubles.new
        factor_numbers.new factor_coeffs.new ≡ faced_by
        (handed (solve_plan (plan_of columns rows entries budget tolerance costs.now
        lowers.now uppers.now starts.now cols.now coeffs.now
        ops.now rhs.now) (memory_in values.old numbers.old
        doubles.old factor_numbers.old factor_coeffs.old))
        (past_of numbers.old doubles.old)) }
{
    let a = solve::solve(
        columns,
        rows,
        entries,
        budget,
        tolerance,
        costs,
        lowers,
        uppers,
        starts,
        cols,
        coeffs,
        ops,
        rhs,
        values,
        numbers,
        doubles,
        factor_numbers,
        factor_coeffs,
    );
    TevalumiAnswer::from(a)
}
