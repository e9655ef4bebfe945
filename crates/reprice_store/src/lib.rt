// docs/RULES-02.md, "Beyond: reprice", parts 1 to 5 over the lent state: the basis is factored in local arrays where
// eta columns are stored, every number is tested, and only then is anything stored. From minilp 0.2.2, src/solver.rs
// (recalc_obj_coeffs and BasisSolver::reset), Apache-2.0, changed: when it is called, and 23 and 25.
#![tactic(auto)]

ghost use Rattle.std.specs.Prelude.{◌≡◌, List, ℕ, length, Float};
ghost use Rattle.lu_factor_rules.specs.Factor.{factored, factorize};
ghost use Rattle.lu_factor_rules.specs.Counted.{factor_at};
ghost use Rattle.rules.specs.Parts.{rowed};
ghost use Rattle.basis_columns.specs.Columns.{ByColumns};
ghost use Rattle.basis_factor.specs.Basis.{columns_of};
ghost use Rattle.state.specs.Packed.{packed, state_in};
ghost use Rattle.reprice_rules.specs.Reprice.{priced as pricedAnew, factored_now, repriced as repricedOf};
ghost use Rattle.reprice_prices.specs.Lent.{priced_of};
ghost use Rattle.reprice_prices.specs.Left.{after_own, own_left};
ghost use Rattle.reprice_store.specs.Lent.{Pricing, PricingBy, anew_of};

// 2 to 5 with the factor of the basis, which isn't stored yet. Where every number is finite it is, in place of the eta
// columns: "no eta columns, no entries, first start 0".
fn with_factor(
    numbers: &mut [usize],
    doubles: &mut [f64],
    factor_numbers: &mut [usize],
    factor_coeffs: &mut [f64],
    at: state::Tally,
    n: usize,
    costs: &[f64],
    kept: &[usize],
    cstarts: &[usize],
    crows: &[usize],
    ccoeffs: &[f64],
    order: &[usize; doubles::MAX_ROWS],
    number: &[usize; doubles::MAX_ROWS],
    lstarts: &[usize; doubles::MAX_ROWS + 1],
    ustarts: &[usize; doubles::MAX_ROWS + 1],
    diag: &[f64; doubles::MAX_ROWS],
    lrows: &[usize; doubles::MAX_TRI_ENTRIES],
    lvals: &[f64; doubles::MAX_TRI_ENTRIES],
    urows: &[usize; doubles::MAX_TRI_ENTRIES],
    uvals: &[f64; doubles::MAX_TRI_ENTRIES],
) -> Result<state::Tally, rules::Stop>
    requires pricing_by { PricingBy n costs.now kept.now cstarts.now crows.now ccoeffs.now numbers.old doubles.old
        factor_numbers.old factor_coeffs.old at }
    requires uvals_value { factored (factor_at (length kept.now) order.now number.now lstarts.now ustarts.now diag.now
        lrows.now lvals.now urows.now uvals.now) ≡ factorize (length kept.now)
        (columns_of cstarts.now crows.now ccoeffs.now n (packed numbers.old doubles.old).basic_vars) }
    ensures { (starts cols : List ℕ) (coeffs : List Float) → ByColumns
        (rowed n starts cols coeffs kept.now) cstarts.now crows.now
        ccoeffs.now → let s = state_in numbers.old doubles.old
        factor_numbers.old factor_coeffs.old at in own_left result numbers.new
        doubles.new factor_numbers.new factor_coeffs.new ≡ after_own s
        (pricedAnew (priced_of n costs.now starts cols coeffs kept.now) (factored_now s
        (factor_at (length kept.now) order.now number.now lstarts.now
        ustarts.now diag.now lrows.now lvals.now urows.now
        uvals.now))) }
{
    let m = kept.len();
    let mut y = [0.0; doubles::MAX_ROWS];
    reprice_factor::multipliers_now(
        m,
        n,
        costs,
        &numbers[state::BASIC_VARS..state::BASIC_VARS_END],
        number,
        lstarts,
        ustarts,
        diag,
        lrows,
        lvals,
        urows,
        uvals,
        &mut y,
    );
    let own = reprice_prices::priced(
        numbers, doubles, at, n, costs, kept, cstarts, crows, ccoeffs, &y,
    );
    match own {
        Err(why) => {
            return Err(why);
        }
        Ok(t) => {
            numbers[state::ETA_STARTS] = 0;
            lu_packed::store(
                m,
                order,
                number,
                lstarts,
                ustarts,
                diag,
                lrows,
                lvals,
                urows,
                uvals,
                factor_numbers,
                factor_coeffs,
            );
            return Ok(state::Tally {
                eta_count: 0,
                objective: t.objective,
                steps: t.steps,
                factored: true,
                factorings: t.factorings,
            });
        }
    }
}

// "Where eta columns are stored, the basis is factored in their place". The factor stays in local arrays until every
// number is tested.
fn anew(
    numbers: &mut [usize],
    doubles: &mut [f64],
    factor_numbers: &mut [usize],
    factor_coeffs: &mut [f64],
    at: state::Tally,
    n: usize,
    costs: &[f64],
    kept: &[usize],
    cstarts: &[usize],
    crows: &[usize],
    ccoeffs: &[f64],
) -> Result<state::Tally, rules::Stop>
    requires { PricingBy n costs.now kept.now cstarts.now crows.now ccoeffs.now numbers.old doubles.old
        factor_numbers.old factor_coeffs.old at }
    ensures { (starts cols : List ℕ) (coeffs : List Float) → ByColumns
        (rowed n starts cols coeffs kept.now) cstarts.now crows.now
        ccoeffs.now → let s = state_in numbers.old doubles.old
        factor_numbers.old factor_coeffs.old at in own_left result numbers.new
        doubles.new factor_numbers.new factor_coeffs.new ≡ after_own s
        (anew_of (priced_of n costs.now starts cols coeffs kept.now) s) }
{
    let mut order = [0usize; doubles::MAX_ROWS];
    let mut number = [doubles::MAX_ROWS; doubles::MAX_ROWS];
    let mut lstarts = [0usize; doubles::MAX_ROWS + 1];
    let mut ustarts = [0usize; doubles::MAX_ROWS + 1];
    let mut diag = [0.0; doubles::MAX_ROWS];
    let mut lrows = [0usize; doubles::MAX_TRI_ENTRIES];
    let mut lvals = [0.0; doubles::MAX_TRI_ENTRIES];
    let mut urows = [0usize; doubles::MAX_TRI_ENTRIES];
    let mut uvals = [0.0; doubles::MAX_TRI_ENTRIES];
    let factored = reprice_factor::factor_now(
        kept.len(),
        n,
        &numbers[state::BASIC_VARS..state::BASIC_VARS_END],
        cstarts,
        crows,
        ccoeffs,
        &mut order,
        &mut number,
        &mut lstarts,
        &mut ustarts,
        &mut diag,
        &mut lrows,
        &mut lvals,
        &mut urows,
        &mut uvals,
    );
    match factored {
        lu_factor_rules::Ended::NotFinite => {
            return Err(rules::Stop::NotFinite);
        }
        lu_factor_rules::Ended::Singular => {
            return Err(rules::Stop::Singular);
        }
        lu_factor_rules::Ended::Done(_) => {
            return with_factor(
                numbers,
                doubles,
                factor_numbers,
                factor_coeffs,
                at,
                n,
                costs,
                kept,
                cstarts,
                crows,
                ccoeffs,
                &order,
                &number,
                &lstarts,
                &ustarts,
                &diag,
                &lrows,
                &lvals,
                &urows,
                &uvals,
            );
        }
    }
}

// The own part of the call, from the state that was kept.
pub fn repriced(
    numbers: &mut [usize],
    doubles: &mut [f64],
    factor_numbers: &mut [usize],
    factor_coeffs: &mut [f64],
    at: state::Tally,
    n: usize,
    costs: &[f64],
    starts: &[usize],
    cols: &[usize],
    coeffs: &[f64],
    kept: &[usize],
) -> Result<state::Tally, rules::Stop>
    requires { Pricing n costs.now starts.now cols.now coeffs.now kept.now numbers.old doubles.old
        factor_numbers.old factor_coeffs.old at }
    ensures { own_left result numbers.new doubles.new factor_numbers.new
        factor_coeffs.new ≡ after_own
        (state_in numbers.old doubles.old factor_numbers.old
        factor_coeffs.old at) (repricedOf
        (priced_of n costs.now starts.now cols.now coeffs.now
        kept.now) (state_in numbers.old doubles.old factor_numbers.old
        factor_coeffs.old at)) }
{
    let mut cstarts = [0usize; doubles::MAX_COLUMNS + 1];
    let mut crows = [0usize; doubles::MAX_ENTRIES];
    let mut ccoeffs = [0.0; doubles::MAX_ENTRIES];
    basis_columns::by_columns(
        n,
        starts,
        cols,
        coeffs,
        kept,
        &mut cstarts,
        &mut crows,
        &mut ccoeffs,
    );
    if at.eta_count == 0 {
        return reprice_prices::as_it_is(
            numbers,
            doubles,
            factor_numbers,
            factor_coeffs,
            at,
            n,
            costs,
            kept,
            &cstarts,
            &crows,
            &ccoeffs,
        );
    }
    anew(
        numbers,
        doubles,
        factor_numbers,
        factor_coeffs,
        at,
        n,
        costs,
        kept,
        &cstarts,
        &crows,
        &ccoeffs,
    )
}
