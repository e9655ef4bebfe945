// docs/RULES-02.md, "Beyond: reprice", parts 2 to 5 over the lent state: the multipliers where no eta column is stored;
// prices and objective for given ones, every number tested, and only then anything stored. From minilp 0.2.2,
// src/solver.rs (recalc_obj_coeffs), Apache-2.0, changed: 23.
#![tactic(auto)]

ghost use Rattle.std.specs.Prelude.{◌≡◌, ◌&&◌, List, [], ℕ, ◌≤◌, length, replicate, Float};
ghost use Rattle.doubles.specs.Num.{f0, finite};
ghost use Rattle.doubles.specs.Limits.{max_rows, max_columns};
ghost use Rattle.doubles.specs.Loop.{all, table};
ghost use Rattle.doubles.specs.Lists.{◌!◌, over};
ghost use Rattle.lu_gate.specs.Gate.{finite_at};
ghost use Rattle.rules.specs.Parts.{rowed, factored_of};
ghost use Rattle.rules.specs.Invariant.{FactorFits};
ghost use Rattle.basis_columns.specs.Columns.{ByColumns};
ghost use Rattle.state.specs.Packed.{state_in};
ghost use Rattle.reprice_rules.specs.Reprice.{basic_costs, multipliers_by, priced_finite, priced_if, priced as pricedAnew};
ghost use Rattle.reprice_numbers.specs.Lent.{costed, valued};
ghost use Rattle.reprice_prices.specs.Lent.{priced_of, Prices};
ghost use Rattle.reprice_prices.specs.Left.{after_own, own_left};

fn store_prices(n: usize, fresh: &[f64; doubles::MAX_COLUMNS], prices: &mut [f64])
    requires { (n ≤ max_columns) × (n ≤ length prices.old) }
    ensures { prices.new ≡ over (table n (λ c. fresh.now ! c)) prices.old }
{
    for c in 0..n {
        prices[c] = fresh[c];
    }
}

// "Multipliers, prices and objective are finite".
fn numbers_finite(
    m: usize,
    y: &[f64; doubles::MAX_ROWS],
    n: usize,
    fresh: &[f64; doubles::MAX_COLUMNS],
    objective: f64,
) -> bool
    requires { (m ≤ length y.now) × (n ≤ length fresh.now) }
    ensures { result ≡ all m (finite_at y.now) && (all n (finite_at fresh.now) && finite
        objective) }
{
    if !lu_gate::all_finite(y, m) {
        return false;
    }
    if !lu_gate::all_finite(fresh, n) {
        return false;
    }
    doubles::is_finite(objective)
}

// 3 to 5, with the multipliers y: tested, then stored.
pub fn priced(
    numbers: &[usize],
    doubles: &mut [f64],
    at: state::Tally,
    n: usize,
    costs: &[f64],
    kept: &[usize],
    cstarts: &[usize],
    crows: &[usize],
    ccoeffs: &[f64],
    y: &[f64; doubles::MAX_ROWS],
) -> Result<state::Tally, rules::Stop>
    requires { Prices n costs.now kept.now cstarts.now crows.now ccoeffs.now numbers.now doubles.old
        × (length y.now ≡ max_rows) }
    ensures { (starts cols : List ℕ) (coeffs : List Float) → ByColumns
        (rowed n starts cols coeffs kept.now) cstarts.now crows.now
        ccoeffs.now → (F : List ℕ) (G : List Float) → let P =
        priced_of n costs.now starts cols coeffs kept.now in let s =
        state_in numbers.now doubles.old F G at in own_left result numbers.now
        doubles.new F G ≡ after_own s (priced_if (priced_finite P s y.now) P s y.now) }
{
    let mut fresh = [0.0; doubles::MAX_COLUMNS];
    reprice_numbers::prices(
        costs,
        n,
        cstarts,
        crows,
        ccoeffs,
        &numbers[state::NB_VARS..state::NB_VARS_END],
        y,
        &mut fresh,
    );
    let objective = reprice_numbers::objective(
        costs,
        n,
        kept,
        &numbers[state::BASIC_VARS..state::BASIC_VARS_END],
        &doubles[state::BASIC_VAR_VALS..state::BASIC_VAR_VALS_END],
        &numbers[state::NB_VARS..state::NB_VARS_END],
        &doubles[state::NB_VAR_VALS..state::NB_VAR_VALS_END],
    );
    if !numbers_finite(kept.len(), y, n, &fresh, objective) {
        return Err(rules::Stop::NotFinite);
    }
    store_prices(n, &fresh, &mut doubles[state::PRICES..state::PRICES_END]);
    Ok(state::Tally {
        eta_count: at.eta_count,
        objective,
        steps: at.steps,
        factored: at.factored,
        factorings: at.factorings,
    })
}

// The multipliers of a basis with no eta column: by its factor, or "With no factor y is as it stands".
fn multipliers(
    n: usize,
    costs: &[f64],
    kept: &[usize],
    basic_vars: &[usize],
    at: state::Tally,
    factor_numbers: &[usize],
    factor_coeffs: &[f64],
    out: &mut [f64; doubles::MAX_ROWS],
)
    requires n_in_bounds { (n ≤ length costs.now) × (length kept.now ≤ max_rows) × (length kept.now ≤ length
        basic_vars.now) × (out.old ≡ replicate max_rows f0) }
    requires factor_fits { FactorFits (length kept.now) (factored_of at.factored at.factorings
        factor_numbers.now factor_coeffs.now) }
    ensures { out.new ≡ multipliers_by at.factored (length kept.now)
        factor_numbers.now factor_coeffs.now
        (basic_costs (costed n costs.now kept.now)
        (valued basic_vars.now [] [] [])) }
{
    let m = kept.len();
    if !at.factored {
        reprice_numbers::basic_costs(costs, n, basic_vars, m, out);
        return;
    }
    let mut y = [0.0; doubles::MAX_ROWS];
    reprice_numbers::basic_costs(costs, n, basic_vars, m, &mut y);
    reprice_numbers::solve_multipliers(
        m,
        &factor_numbers[lu_factor_rules::NUMBER..lu_factor_rules::NUMBER_END],
        &factor_numbers[lu_factor_rules::UT_STARTS..lu_factor_rules::UT_STARTS_END],
        &factor_numbers[lu_factor_rules::UT_ROWS..lu_factor_rules::UT_ROWS_END],
        &factor_coeffs[lu_factor_rules::UT_COEFFS..lu_factor_rules::UT_COEFFS_END],
        &factor_numbers[lu_factor_rules::LT_STARTS..lu_factor_rules::LT_STARTS_END],
        &factor_numbers[lu_factor_rules::LT_ROWS..lu_factor_rules::LT_ROWS_END],
        &factor_coeffs[lu_factor_rules::LT_COEFFS..lu_factor_rules::LT_COEFFS_END],
        &factor_coeffs[lu_factor_rules::DIAG..lu_factor_rules::DIAG_END],
        &mut y,
        out,
    );
}

// 2 to 5 with no eta column: "the factor, or that there is none, stays".
pub fn as_it_is(
    numbers: &[usize],
    doubles: &mut [f64],
    factor_numbers: &[usize],
    factor_coeffs: &[f64],
    at: state::Tally,
    n: usize,
    costs: &[f64],
    kept: &[usize],
    cstarts: &[usize],
    crows: &[usize],
    ccoeffs: &[f64],
) -> Result<state::Tally, rules::Stop>
    requires { Prices n costs.now kept.now cstarts.now crows.now ccoeffs.now numbers.now doubles.old
        × FactorFits (length kept.now)
        (factored_of at.factored at.factorings factor_numbers.now factor_coeffs.now) }
    ensures { (starts cols : List ℕ) (coeffs : List Float) → ByColumns
        (rowed n starts cols coeffs kept.now) cstarts.now crows.now
        ccoeffs.now → let s = state_in numbers.now doubles.old
        factor_numbers.now factor_coeffs.now at in own_left result numbers.now
        doubles.new factor_numbers.now factor_coeffs.now ≡ after_own s
        (pricedAnew (priced_of n costs.now starts cols coeffs kept.now) s) }
{
    let mut y = [0.0; doubles::MAX_ROWS];
    multipliers(
        n,
        costs,
        kept,
        &numbers[state::BASIC_VARS..state::BASIC_VARS_END],
        at,
        factor_numbers,
        factor_coeffs,
        &mut y,
    );
    priced(
        numbers, doubles, at, n, costs, kept, cstarts, crows, ccoeffs, &y,
    )
}
