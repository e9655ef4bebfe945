// An exchange whose eta column doesn't fit. 02: "the exchange is made, then the new basis is factored in place of storing
// that column". The factor is reckoned in local arrays; nothing is stored before it is there, and the stores can't fail.
// From minilp 0.2.2, src/solver.rs, BasisSolver::reset, Apache-2.0, changed: when it is called, and 23 and 25.
#![tactic(auto)]

ghost use Rattle.std.specs.Prelude.{◌≡◌, Bool, List, ℕ, ◌<◌, length, Float};
ghost use Rattle.doubles.specs.Limits.{max_columns};
ghost use Rattle.sparse.specs.Scattered.{Pat, sv, sv_of};
ghost use Rattle.rules.specs.Parts.{rowed};
ghost use Rattle.rules.specs.Step as Step;
ghost use Rattle.basis_columns.specs.Columns.{ByColumns};
ghost use Rattle.step_numbers.specs.Lent.{Listing};
ghost use Rattle.state.specs.Packed.{state_in};
ghost use Rattle.step_refactor.specs.Left.{after, left_by, stepped};
ghost use Rattle.step_refactor.specs.Lent.{ReadyBy, Solved, Squares};
ghost use Rattle.step_refactor.specs.Made.{made};

// The new basis is factored, then the exchange is stored with the factor and no eta column. `sq` is the column's sum of
// squares; the row and the helper are those of the exchange.
pub fn refactor(
    numbers: &mut [usize],
    doubles: &mut [f64],
    factor_numbers: &mut [usize],
    factor_coeffs: &mut [f64],
    at: state::Tally,
    n: usize,
    lowers: &[f64],
    uppers: &[f64],
    ops: &[u8],
    kept: &[usize],
    cstarts: &[usize],
    crows: &[usize],
    ccoeffs: &[f64],
    values: &[f64; doubles::PLACES],
    list: &[usize; doubles::PLACES],
    count: usize,
    row_values: &[f64; doubles::PLACES],
    row_list: &[usize; doubles::PLACES],
    row_count: usize,
    helper: &[f64; doubles::PLACES],
    sq: f64,
    e: rules::Entering,
    x: state::Exchange,
) -> Result<state::Tally, rules::Stop>
    requires ready_by { ReadyBy n lowers.now uppers.now ops.now kept.now cstarts.now crows.now ccoeffs.now
        numbers.old doubles.old factor_numbers.old factor_coeffs.old at }
    requires solved { Solved (length kept.now) values.now list.now count × (e.col < n) × (x.row < length kept.now)
        × Squares values.now list.now count sq × Listing max_columns row_count row_list.now }
    ensures { (starts cols : List ℕ) (coeffs : List Float) → ByColumns
        (rowed n starts cols coeffs kept.now) cstarts.now crows.now
        ccoeffs.now → (m rm : List Bool) (p : Pat) → left_by result numbers.new doubles.new
        factor_numbers.new factor_coeffs.new ≡ made
        (stepped n lowers.now uppers.now starts cols coeffs ops.now
        kept.now) (state_in numbers.old doubles.old factor_numbers.old
        factor_coeffs.old at) e (sv values.now m list.now count)
        (sv row_values.now rm row_list.now row_count) (sv_of helper.now p) x }
{
    let m = kept.len();
    let mut basis = [0usize; doubles::MAX_ROWS];
    let enters = numbers[state::NB_VARS + e.col];
    basis_factor::new_basis(
        &numbers[state::BASIC_VARS..state::BASIC_VARS_END],
        x.row,
        enters,
        &mut basis,
    );
    let mut order = [0usize; doubles::MAX_ROWS];
    let mut number = [doubles::MAX_ROWS; doubles::MAX_ROWS];
    let mut lstarts = [0usize; doubles::MAX_ROWS + 1];
    let mut ustarts = [0usize; doubles::MAX_ROWS + 1];
    let mut diag = [0.0; doubles::MAX_ROWS];
    let mut lrows = [0usize; doubles::MAX_TRI_ENTRIES];
    let mut lvals = [0.0; doubles::MAX_TRI_ENTRIES];
    let mut urows = [0usize; doubles::MAX_TRI_ENTRIES];
    let mut uvals = [0.0; doubles::MAX_TRI_ENTRIES];
    let factored = basis_factor::factorize(
        m,
        cstarts,
        crows,
        ccoeffs,
        n,
        &basis,
        &mut order,
        &mut number,
        &mut lstarts,
        &mut ustarts,
        &mut diag,
        &mut lrows,
        &mut lvals,
        &mut urows,
        &mut uvals,
    );
    match factored {
        lu_factor_rules::Ended::NotFinite => {
            return Err(rules::Stop::NotFinite);
        }
        lu_factor_rules::Ended::Singular => {
            return Err(rules::Stop::Singular);
        }
        lu_factor_rules::Ended::Done(_) => {
            let t = step_store::store_bare(
                numbers, doubles, at, n, lowers, uppers, ops, kept, values, list, count,
                row_values, row_list, row_count, helper, sq, e, x,
            );
            lu_packed::store(
                m,
                &order,
                &number,
                &lstarts,
                &ustarts,
                &diag,
                &lrows,
                &lvals,
                &urows,
                &uvals,
                factor_numbers,
                factor_coeffs,
            );
            return Ok(t);
        }
    }
}
