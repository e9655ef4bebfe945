// From the state that a run left to the end of a call's own run: the column's own part, then the steps. From minilp
// 0.2.2, src/solver.rs, fix_var and unfix_var, Apache-2.0, changed: 02's budget, and primal steps after the dual ones.
#![tactic(auto)]

ghost use Rattle.std.specs.Prelude.{◌≡◌, ◌<◌, ◌≤◌, length};
ghost use Rattle.doubles.specs.Limits.{max_budget};
ghost use Rattle.doubles.specs.Lists.{◌#◌};
ghost use Rattle.rules.specs.Parts.{rowed};
ghost use Rattle.basis_columns.specs.Columns.{ByColumns};
ghost use Rattle.state.specs.Packed.{packed, state_in};
ghost use Rattle.run.specs.Ran.{ran_by};
ghost use Rattle.run.specs.Lent.{Running};
ghost use Rattle.fix_rules.specs.Fix as Fix;
ghost use Rattle.fix_basic.specs.Lent.{called_of};

use run::Ran;

// docs/RULES-02.md: "Non-basic, at place c": the move, then dual steps and primal ones.
fn fix_non_basic(
    numbers: &mut [usize],
    doubles: &mut [f64],
    factor_numbers: &mut [usize],
    factor_coeffs: &mut [f64],
    at: state::Tally,
    n: usize,
    budget: usize,
    lowers: &[f64],
    uppers: &[f64],
    starts: &[usize],
    cols: &[usize],
    coeffs: &[f64],
    ops: &[u8],
    kept: &[usize],
    cstarts: &[usize],
    crows: &[usize],
    ccoeffs: &[f64],
    col: usize,
    value: f64,
) -> Ran
    requires running { Running n lowers.now uppers.now starts.now cols.now coeffs.now ops.now kept.now
        numbers.old doubles.old factor_numbers.old factor_coeffs.old at × (at.steps ≡ 0) × (col < n) }
    requires by_columns { ByColumns (rowed n starts.now cols.now coeffs.now kept.now) cstarts.now crows.now
        ccoeffs.now × (n < length cstarts.now) × (budget ≤ max_budget) }
    ensures { ran_by result numbers.new doubles.new factor_numbers.new
        factor_coeffs.new ≡ Fix.fix_non_basic
        (called_of n budget lowers.now uppers.now starts.now cols.now
        coeffs.now ops.now kept.now)
        (state_in numbers.old doubles.old factor_numbers.old
        factor_coeffs.old at) col value }
{
    let went = fix_move::shift(
        numbers,
        doubles,
        factor_numbers,
        factor_coeffs,
        at,
        n,
        kept,
        cstarts,
        crows,
        ccoeffs,
        col,
        value,
    );
    match went {
        Err(why) => {
            return Ran { why, at };
        }
        Ok(shifted) => {
            return run_dual::both(
                numbers,
                doubles,
                factor_numbers,
                factor_coeffs,
                shifted,
                n,
                lowers,
                uppers,
                starts,
                cols,
                coeffs,
                ops,
                kept,
                cstarts,
                crows,
                ccoeffs,
                budget,
            );
        }
    }
}

// A fix of column j, from the kept state: the matrix by columns, which is made here alone, then the part for where the
// column stands.
pub fn fixed(
    numbers: &mut [usize],
    doubles: &mut [f64],
    factor_numbers: &mut [usize],
    factor_coeffs: &mut [f64],
    at: state::Tally,
    n: usize,
    budget: usize,
    lowers: &[f64],
    uppers: &[f64],
    starts: &[usize],
    cols: &[usize],
    coeffs: &[f64],
    ops: &[u8],
    kept: &[usize],
    j: usize,
    value: f64,
) -> Ran
    requires { Running n lowers.now uppers.now starts.now cols.now coeffs.now ops.now kept.now
        numbers.old doubles.old factor_numbers.old factor_coeffs.old at × (at.steps ≡ 0) × (j < n)
        × (budget ≤ max_budget) }
    ensures { ran_by result numbers.new doubles.new factor_numbers.new
        factor_coeffs.new ≡ Fix.fixed
        (called_of n budget lowers.now uppers.now starts.now cols.now
        coeffs.now ops.now kept.now)
        (state_in numbers.old doubles.old factor_numbers.old
        factor_coeffs.old at) j value }
{
    let mut cstarts = [0usize; doubles::MAX_COLUMNS + 1];
    let mut crows = [0usize; doubles::MAX_ENTRIES];
    let mut ccoeffs = [0.0; doubles::MAX_ENTRIES];
    basis_columns::by_columns(
        n,
        starts,
        cols,
        coeffs,
        kept,
        &mut cstarts,
        &mut crows,
        &mut ccoeffs,
    );
    let standing = cells::var_state(n, numbers[state::VAR_STATES + j]);
    match standing {
        rules::VarState::NonBasic(col) => {
            return fix_non_basic(
                numbers,
                doubles,
                factor_numbers,
                factor_coeffs,
                at,
                n,
                budget,
                lowers,
                uppers,
                starts,
                cols,
                coeffs,
                ops,
                kept,
                &cstarts,
                &crows,
                &ccoeffs,
                col,
                value,
            );
        }
        rules::VarState::Basic(row) => {
            return fix_basic::fix_basic(
                numbers,
                doubles,
                factor_numbers,
                factor_coeffs,
                at,
                n,
                budget,
                lowers,
                uppers,
                starts,
                cols,
                coeffs,
                ops,
                kept,
                &cstarts,
                &crows,
                &ccoeffs,
                j,
                row,
                value,
            );
        }
    }
}

// "Unfix": the mark is taken off column j, which is non-basic, then "primal steps until no column enters".
pub fn unfixed(
    numbers: &mut [usize],
    doubles: &mut [f64],
    factor_numbers: &mut [usize],
    factor_coeffs: &mut [f64],
    at: state::Tally,
    n: usize,
    budget: usize,
    lowers: &[f64],
    uppers: &[f64],
    starts: &[usize],
    cols: &[usize],
    coeffs: &[f64],
    ops: &[u8],
    kept: &[usize],
    j: usize,
) -> Ran
    requires running { Running n lowers.now uppers.now starts.now cols.now coeffs.now ops.now kept.now
        numbers.old doubles.old factor_numbers.old factor_coeffs.old at × (at.steps ≡ 0) × (j < n)
        × (budget ≤ max_budget) }
    requires j_bound { (packed numbers.old doubles.old).var_states # j < n }
    ensures { ran_by result numbers.new doubles.new factor_numbers.new
        factor_coeffs.new ≡ Fix.unfixed
        (called_of n budget lowers.now uppers.now starts.now cols.now
        coeffs.now ops.now kept.now)
        (state_in numbers.old doubles.old factor_numbers.old
        factor_coeffs.old at) j }
{
    let col = numbers[state::VAR_STATES + j];
    fix_store::unmark(numbers, doubles, n, lowers, uppers, ops, kept, col);
    run_launch::go_on(
        numbers,
        doubles,
        factor_numbers,
        factor_coeffs,
        at,
        n,
        budget,
        lowers,
        uppers,
        starts,
        cols,
        coeffs,
        ops,
        kept,
        false,
    )
}
