// The run from dual steps on: until no row leaves, the budget is spent, or a step gives no state; then primal ones.
// From minilp 0.2.2, src/solver.rs, restore_feasibility, Apache-2.0, changed: 01's budget, and the answers of a step end
// it.
#![tactic(auto)]

ghost use Rattle.std.specs.Prelude.{◌≡◌, ◌-◌, ◌<◌, ◌≤◌, length};
ghost use Rattle.doubles.specs.Limits.{max_budget};
ghost use Rattle.rules.specs.Parts.{rowed};
ghost use Rattle.rules.specs.Step.{dual_run_of, both_runs};
ghost use Rattle.basis_columns.specs.Columns.{ByColumns};
ghost use Rattle.state.specs.Packed.{state_in};
ghost use Rattle.step_refactor.specs.Left.{stepped};
ghost use Rattle.run.specs.Ran.{ran_by};
ghost use Rattle.run.specs.Lent.{Running};

use run::Ran;

// 02, Ask 8: dual steps until no row leaves. A row would leave and the budget is spent: 21.
pub fn restore_feasibility(
    numbers: &mut [usize],
    doubles: &mut [f64],
    factor_numbers: &mut [usize],
    factor_coeffs: &mut [f64],
    at: state::Tally,
    n: usize,
    lowers: &[f64],
    uppers: &[f64],
    starts: &[usize],
    cols: &[usize],
    coeffs: &[f64],
    ops: &[u8],
    kept: &[usize],
    cstarts: &[usize],
    crows: &[usize],
    ccoeffs: &[f64],
    budget: usize,
) -> Ran
    requires running { Running n lowers.now uppers.now starts.now cols.now coeffs.now ops.now kept.now
        numbers.old doubles.old factor_numbers.old factor_coeffs.old at }
    requires by_columns { ByColumns (rowed n starts.now cols.now coeffs.now kept.now) cstarts.now crows.now
        ccoeffs.now × (n < length cstarts.now) × (budget ≤ max_budget) }
    ensures { ran_by result numbers.new doubles.new factor_numbers.new
        factor_coeffs.new ≡ dual_run_of
        (stepped n lowers.now uppers.now starts.now cols.now
        coeffs.now ops.now kept.now) (budget - at.steps)
        (state_in numbers.old doubles.old factor_numbers.old
        factor_coeffs.old at) }
{
    let mut so_far = at;
    loop {
        let choice = step_dual_reads::choose_row(numbers, doubles, n, lowers, uppers, ops, kept);
        let Some(l) = choice else {
            let why = rules::Stop::Finished;
            return Ran { why, at: so_far };
        };
        if so_far.steps >= budget {
            let why = rules::Stop::Spent;
            return Ran { why, at: so_far };
        }
        let went = step_dual::dual_step(
            numbers,
            doubles,
            factor_numbers,
            factor_coeffs,
            so_far,
            n,
            lowers,
            uppers,
            starts,
            cols,
            coeffs,
            ops,
            kept,
            cstarts,
            crows,
            ccoeffs,
            l,
            false,
        );
        match went {
            Ok(after) => {
                so_far = after;
            }
            Err(why) => {
                return Ran { why, at: so_far };
            }
        }
    }
}

// docs/RULES-02.md: "dual steps until no row leaves. Then, for every plan, primal steps until no column enters". The
// budget is that of both kinds together.
pub fn both(
    numbers: &mut [usize],
    doubles: &mut [f64],
    factor_numbers: &mut [usize],
    factor_coeffs: &mut [f64],
    at: state::Tally,
    n: usize,
    lowers: &[f64],
    uppers: &[f64],
    starts: &[usize],
    cols: &[usize],
    coeffs: &[f64],
    ops: &[u8],
    kept: &[usize],
    cstarts: &[usize],
    crows: &[usize],
    ccoeffs: &[f64],
    budget: usize,
) -> Ran
    requires running { Running n lowers.now uppers.now starts.now cols.now coeffs.now ops.now kept.now
        numbers.old doubles.old factor_numbers.old factor_coeffs.old at }
    requires by_columns { ByColumns (rowed n starts.now cols.now coeffs.now kept.now) cstarts.now crows.now
        ccoeffs.now × (n < length cstarts.now) × (budget ≤ max_budget) }
    ensures { ran_by result numbers.new doubles.new factor_numbers.new
        factor_coeffs.new ≡ both_runs
        (stepped n lowers.now uppers.now starts.now cols.now
        coeffs.now ops.now kept.now) budget
        (state_in numbers.old doubles.old factor_numbers.old
        factor_coeffs.old at) }
{
    let first = restore_feasibility(
        numbers,
        doubles,
        factor_numbers,
        factor_coeffs,
        at,
        n,
        lowers,
        uppers,
        starts,
        cols,
        coeffs,
        ops,
        kept,
        cstarts,
        crows,
        ccoeffs,
        budget,
    );
    let why = first.why;
    let rules::Stop::Finished = why else {
        return first;
    };
    run::optimize(
        numbers,
        doubles,
        factor_numbers,
        factor_coeffs,
        first.at,
        n,
        lowers,
        uppers,
        starts,
        cols,
        coeffs,
        ops,
        kept,
        cstarts,
        crows,
        ccoeffs,
        budget,
    )
}
