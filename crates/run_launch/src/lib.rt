// From the start's numbers, which have passed 6 and 7, to the end of the run; and a run from any state that fits.
#![tactic(auto)]

ghost use Rattle.std.specs.Prelude.{◌≡◌, ◌≤◌};
ghost use Rattle.doubles.specs.Limits.{max_budget};
ghost use Rattle.state.specs.Packed.{packed, state_in};
ghost use Rattle.start.specs.Reckoned as Reckoned;
ghost use Rattle.step_refactor.specs.Left.{stepped};
ghost use Rattle.run.specs.Ran.{ran_by};
ghost use Rattle.run.specs.Lent.{Running};
ghost use Rattle.run_launch.specs.Launched.{launched_of, first_state, gone_on, launched, Launches};

// The matrix by columns, which is made here alone, then the run: with dual steps first, or with primal ones alone.
pub fn go_on(
    numbers: &mut [usize],
    doubles: &mut [f64],
    factor_numbers: &mut [usize],
    factor_coeffs: &mut [f64],
    at: state::Tally,
    n: usize,
    budget: usize,
    lowers: &[f64],
    uppers: &[f64],
    starts: &[usize],
    cols: &[usize],
    coeffs: &[f64],
    ops: &[u8],
    kept: &[usize],
    dual: bool,
) -> run::Ran
    requires running { Running n lowers.now uppers.now starts.now cols.now coeffs.now ops.now kept.now
        numbers.old doubles.old factor_numbers.old factor_coeffs.old at }
    requires budget_le_max_budget { budget ≤ max_budget }
    ensures { ran_by result numbers.new doubles.new factor_numbers.new
        factor_coeffs.new ≡ gone_on
        (stepped n lowers.now uppers.now starts.now cols.now
        coeffs.now ops.now kept.now) dual budget
        (state_in numbers.old doubles.old factor_numbers.old
        factor_coeffs.old at) }
{
    let mut cstarts = [0usize; doubles::MAX_COLUMNS + 1];
    let mut crows = [0usize; doubles::MAX_ENTRIES];
    let mut ccoeffs = [0.0; doubles::MAX_ENTRIES];
    basis_columns::by_columns(
        n,
        starts,
        cols,
        coeffs,
        kept,
        &mut cstarts,
        &mut crows,
        &mut ccoeffs,
    );
    if dual {
        return run_dual::both(
            numbers,
            doubles,
            factor_numbers,
            factor_coeffs,
            at,
            n,
            lowers,
            uppers,
            starts,
            cols,
            coeffs,
            ops,
            kept,
            &cstarts,
            &crows,
            &ccoeffs,
            budget,
        );
    }
    run::optimize(
        numbers,
        doubles,
        factor_numbers,
        factor_coeffs,
        at,
        n,
        lowers,
        uppers,
        starts,
        cols,
        coeffs,
        ops,
        kept,
        &cstarts,
        &crows,
        &ccoeffs,
        budget,
    )
}

// The first state is written, and the run goes on from it. 02, Ask 8: "dual steps for starts that are dual feasible".
pub fn launch(
    numbers: &mut [usize],
    doubles: &mut [f64],
    factor_numbers: &mut [usize],
    factor_coeffs: &mut [f64],
    n: usize,
    budget: usize,
    costs: &[f64],
    lowers: &[f64],
    uppers: &[f64],
    starts: &[usize],
    cols: &[usize],
    coeffs: &[f64],
    ops: &[u8],
    kept: &[usize],
    xs: &[f64; doubles::MAX_COLUMNS],
    slacks: &[f64; doubles::MAX_ROWS],
    norms: &[f64; doubles::MAX_COLUMNS],
    objective: f64,
) -> run::Ran
    requires { Launches (launched_of n costs.now lowers.now uppers.now starts.now cols.now coeffs.now
        ops.now kept.now) budget (Reckoned.numbers xs.now slacks.now norms.now objective) numbers.old
        doubles.old factor_numbers.old factor_coeffs.old }
    ensures { ran_by result numbers.new doubles.new factor_numbers.new
        factor_coeffs.new ≡ launched
        (launched_of n costs.now lowers.now uppers.now starts.now
        cols.now coeffs.now ops.now kept.now) budget
        (first_state (launched_of n costs.now lowers.now uppers.now starts.now
        cols.now coeffs.now ops.now kept.now)
        (Reckoned.numbers xs.now slacks.now norms.now objective)
        (packed numbers.old doubles.old) factor_numbers.old
        factor_coeffs.old) }
{
    start_write::write_start(
        n,
        kept.len(),
        costs,
        lowers,
        uppers,
        xs,
        slacks,
        norms,
        numbers,
        doubles,
    );
    let at = state::Tally {
        eta_count: 0,
        objective,
        steps: 0,
        factored: false,
        factorings: 0,
    };
    let dual = start_values::dual_feasible(costs, lowers, uppers, n);
    go_on(
        numbers,
        doubles,
        factor_numbers,
        factor_coeffs,
        at,
        n,
        budget,
        lowers,
        uppers,
        starts,
        cols,
        coeffs,
        ops,
        kept,
        dual,
    )
}
