// A fix of a non-basic column: its solve, the tests, then the store. From minilp 0.2.2, src/solver.rs, fix_var,
// Apache-2.0, changed: 01's answer 23, and the vectors are local arrays.
#![tactic(auto)]

ghost use Rattle.std.specs.Prelude.{◌≡◌, Bool, List, ℕ, ◌<◌, length, Float};
ghost use Rattle.doubles.specs.Limits.{max_rows, max_columns};
ghost use Rattle.sparse.specs.Scattered.{sv};
ghost use Rattle.rules.specs.Parts.{rowed};
ghost use Rattle.basis_columns.specs.Columns.{ByColumns};
ghost use Rattle.state.specs.Packed.{state_in, objective_at};
ghost use Rattle.step_numbers.specs.Lent.{Listing};
ghost use Rattle.step_refactor.specs.Left.{left_by};
ghost use Rattle.fix_rules.specs.Fix.{shift_finite_by};
ghost use Rattle.fix_move.specs.Lent.{Moves};
ghost use Rattle.fix_move.specs.Shift.{shift_left};

// docs/RULES-02.md: "each listed row's basic value loses diff * its entry, in listed order; the objective gains diff *
// price. They are finite, else 23".
fn shift_finite(
    doubles: &[f64],
    at: state::Tally,
    values: &[f64; doubles::PLACES],
    list: &[usize; doubles::PLACES],
    count: usize,
    col: usize,
    value: f64,
) -> bool
    requires { (length doubles.now ≡ objective_at) × (col < max_columns) × Listing max_rows count list.now }
    ensures { (N F : List ℕ) (G : List Float) (m : List Bool) → result ≡ shift_finite_by
        (state_in N doubles.now F G at) col (sv values.now m list.now count) value }
{
    let diff = value - doubles[state::NB_VAR_VALS + col];
    let objective = fix_store::new_objective(at.objective, doubles[state::PRICES + col], diff);
    if !step_numbers::moved_finite(
        &doubles[state::BASIC_VAR_VALS..state::BASIC_VAR_VALS_END],
        values,
        list,
        count,
        diff,
    ) {
        return false;
    }
    doubles::is_finite(objective)
}

// The column of the variable at place `col` is moved to the value, and marked there. "This is no step and asks no
// budget".
pub fn shift(
    numbers: &mut [usize],
    doubles: &mut [f64],
    factor_numbers: &[usize],
    factor_coeffs: &[f64],
    at: state::Tally,
    n: usize,
    kept: &[usize],
    cstarts: &[usize],
    crows: &[usize],
    ccoeffs: &[f64],
    col: usize,
    value: f64,
) -> Result<state::Tally, rules::Stop>
    requires { Moves n kept.now cstarts.now crows.now ccoeffs.now numbers.old doubles.old
        factor_numbers.now factor_coeffs.now at × (col < n) }
    ensures { (starts cols : List ℕ) (coeffs : List Float) → ByColumns
        (rowed n starts cols coeffs kept.now) cstarts.now crows.now
        ccoeffs.now → left_by result numbers.new doubles.new factor_numbers.now
        factor_coeffs.now ≡ shift_left (rowed n starts cols coeffs kept.now)
        (state_in numbers.old doubles.old factor_numbers.now
        factor_coeffs.now at) col value }
{
    let mut values = [0.0; doubles::PLACES];
    let mut marks = [false; doubles::PLACES];
    let mut list = [0usize; doubles::PLACES];
    let count = step_reads::column(
        &mut values,
        &mut marks,
        &mut list,
        numbers,
        doubles,
        factor_numbers,
        factor_coeffs,
        at,
        n,
        kept.len(),
        cstarts,
        crows,
        ccoeffs,
        col,
    );
    if !sparse::listed_finite(&values, &list, count) {
        return Err(rules::Stop::NotFinite);
    }
    if !shift_finite(doubles, at, &values, &list, count, col, value) {
        return Err(rules::Stop::NotFinite);
    }
    Ok(fix_store::store_shift(numbers, doubles, at, &values, &list, count, col, value))
}
