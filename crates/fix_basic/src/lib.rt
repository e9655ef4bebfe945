// A basic column held still (02, Ask 9): it leaves the basis at the value, then dual steps and primal ones. From minilp
// 0.2.2, src/solver.rs, fix_var, Apache-2.0, changed: 02's budget, and primal steps after the dual ones.
#![tactic(auto)]

ghost use Rattle.std.specs.Prelude.{◌≡◌, ◌<◌, ◌≤◌, length};
ghost use Rattle.doubles.specs.Limits.{max_budget};
ghost use Rattle.rules.specs.Plan.{State};
ghost use Rattle.rules.specs.Parts.{rowed};
ghost use Rattle.basis_columns.specs.Columns.{ByColumns};
ghost use Rattle.state.specs.Packed.{state_in};
ghost use Rattle.step_refactor.specs.Left.{after_by, left_by, stepped};
ghost use Rattle.step_refactor.specs.Lent.{Ready};
ghost use Rattle.run.specs.Ran.{ran_by};
ghost use Rattle.run.specs.Lent.{Running};
ghost use Rattle.fix_rules.specs.Fix as Fix;
ghost use Rattle.fix_basic.specs.Lent.{called_of, StandsIn};

use run::Ran;

// "a dual step of Ask 8 from its part 3 on, with row r as the leaving row and the value as the leaving value".
fn leave(
    numbers: &mut [usize],
    doubles: &mut [f64],
    factor_numbers: &mut [usize],
    factor_coeffs: &mut [f64],
    at: state::Tally,
    n: usize,
    lowers: &[f64],
    uppers: &[f64],
    starts: &[usize],
    cols: &[usize],
    coeffs: &[f64],
    ops: &[u8],
    kept: &[usize],
    cstarts: &[usize],
    crows: &[usize],
    ccoeffs: &[f64],
    row: usize,
    value: f64,
) -> Result<state::Tally, rules::Stop>
    requires ready { Ready n lowers.now uppers.now starts.now cols.now coeffs.now ops.now kept.now
        numbers.old doubles.old factor_numbers.old factor_coeffs.old at }
    requires by_columns { ByColumns (rowed n starts.now cols.now coeffs.now kept.now) cstarts.now crows.now
        ccoeffs.now × (n < length cstarts.now) × (row < length kept.now) }
    ensures { left_by result numbers.new doubles.new factor_numbers.new
        factor_coeffs.new ≡ after_by
        (λ (s : State). Fix.fix_step (stepped n lowers.now uppers.now starts.now
        cols.now coeffs.now ops.now kept.now) s row value)
        (state_in numbers.old doubles.old factor_numbers.old
        factor_coeffs.old at) }
{
    let still = doubles[state::BASIC_VAR_VALS + row] == value;
    let l = rules::LeavingVar {
        row,
        infeasibility: 0.0,
        score: 0.0,
        value,
    };
    step_dual::dual_step(
        numbers,
        doubles,
        factor_numbers,
        factor_coeffs,
        at,
        n,
        lowers,
        uppers,
        starts,
        cols,
        coeffs,
        ops,
        kept,
        cstarts,
        crows,
        ccoeffs,
        l,
        still,
    )
}

// "Basic, in row r. The budget: 21 where it is 0". The dual step, then "the mark, at the entering place, where the
// column now stands", then dual steps and primal ones.
pub fn fix_basic(
    numbers: &mut [usize],
    doubles: &mut [f64],
    factor_numbers: &mut [usize],
    factor_coeffs: &mut [f64],
    at: state::Tally,
    n: usize,
    budget: usize,
    lowers: &[f64],
    uppers: &[f64],
    starts: &[usize],
    cols: &[usize],
    coeffs: &[f64],
    ops: &[u8],
    kept: &[usize],
    cstarts: &[usize],
    crows: &[usize],
    ccoeffs: &[f64],
    j: usize,
    row: usize,
    value: f64,
) -> Ran
    requires running { Running n lowers.now uppers.now starts.now cols.now coeffs.now ops.now kept.now
        numbers.old doubles.old factor_numbers.old factor_coeffs.old at × (at.steps ≡ 0)
        × StandsIn n kept.now numbers.old doubles.old j row }
    requires by_columns { ByColumns (rowed n starts.now cols.now coeffs.now kept.now) cstarts.now crows.now
        ccoeffs.now × (n < length cstarts.now) × (budget ≤ max_budget) }
    ensures { ran_by result numbers.new doubles.new factor_numbers.new
        factor_coeffs.new ≡ Fix.fix_basic
        (called_of n budget lowers.now uppers.now starts.now cols.now
        coeffs.now ops.now kept.now)
        (state_in numbers.old doubles.old factor_numbers.old
        factor_coeffs.old at) j row value }
{
    if budget == 0 {
        return Ran {
            why: rules::Stop::Spent,
            at,
        };
    }
    let went = leave(
        numbers,
        doubles,
        factor_numbers,
        factor_coeffs,
        at,
        n,
        lowers,
        uppers,
        starts,
        cols,
        coeffs,
        ops,
        kept,
        cstarts,
        crows,
        ccoeffs,
        row,
        value,
    );
    match went {
        Err(why) => {
            return Ran { why, at };
        }
        Ok(left) => {
            let col = numbers[state::VAR_STATES + j];
            fix_store::mark(numbers, col);
            return run_dual::both(
                numbers,
                doubles,
                factor_numbers,
                factor_coeffs,
                left,
                n,
                lowers,
                uppers,
                starts,
                cols,
                coeffs,
                ops,
                kept,
                cstarts,
                crows,
                ccoeffs,
                budget,
            );
        }
    }
}
