// docs/RULES-02.md, "Beyond: reprice": the costs of the basis, the multipliers, the prices and the objective, worked
// out anew; nothing of the state is written. From minilp 0.2.2, src/solver.rs (recalc_obj_coeffs), Apache-2.0, changed:
// sums from 0.0, and the matrix by columns is lent.
#![tactic(auto)]

ghost use Rattle.std.specs.Prelude.{◌≡◌, [], ◌≤◌, length, replicate};
ghost use Rattle.doubles.specs.Num.{f0};
ghost use Rattle.doubles.specs.Limits.{max_rows, max_columns};
ghost use Rattle.doubles.specs.Loop.{run, table};
ghost use Rattle.doubles.specs.Lists.{◌!◌, ◌#◌, over};
ghost use Rattle.sparse.specs.Scattered.{Within};
ghost use Rattle.lu_factor_rules.specs.Factor.{matrix};
ghost use Rattle.lu_apply.specs.Ask.{Solid};
ghost use Rattle.reprice_rules.specs.Reprice.{cost_of, by_rows, objective_of};
ghost use Rattle.reprice_numbers.specs.Lent.{costed, valued, dense_both, add_turn, sum_on, price_on, SumLent, SumsLent};

// The cost of variable v of n columns: "0.0 for a slack".
fn cost_of(costs: &[f64], n: usize, v: usize) -> f64
    requires { n ≤ length costs.now }
    ensures { result ≡ cost_of (costed n costs.now []) v }
{
    if v < n {
        return costs[v];
    }
    0.0
}

// "y over basis places is the cost of each basic variable", over the front of the scratch.
pub fn basic_costs(
    costs: &[f64],
    n: usize,
    basic_vars: &[usize],
    m: usize,
    y: &mut [f64; doubles::MAX_ROWS],
)
    requires { (n ≤ length costs.now) × (m ≤ max_rows) × (m ≤ length basic_vars.now) × (m ≤ length y.old) }
    ensures { y.new ≡ over (table m
        (λ i. cost_of (costed n costs.now []) (basic_vars.now # i))) y.old }
{
    for i in 0..m {
        y[i] = cost_of(costs, n, basic_vars[i]);
    }
}

// "Pivot number j gives the multiplier of the kept row that is pivot row j".
fn by_rows(
    m: usize,
    number: &[usize],
    y: &[f64; doubles::MAX_ROWS],
    out: &mut [f64; doubles::MAX_ROWS],
)
    requires { (m ≤ max_rows) × (m ≤ length number.now) × (m ≤ length out.old) × Within max_rows m number.now }
    ensures { out.new ≡ over (table m (λ r. y.now ! (number.now # r)))
        out.old }
{
    for r in 0..m {
        let j = number[r];
        out[r] = y[j];
    }
}

// "Dense solves with U's transpose, columns rising, each divided by its number of the diagonal first, and then with L's
// transpose, columns falling", mapped back to rows.
pub fn solve_multipliers(
    m: usize,
    number: &[usize],
    ut_starts: &[usize],
    ut_rows: &[usize],
    ut_coeffs: &[f64],
    lt_starts: &[usize],
    lt_rows: &[usize],
    lt_coeffs: &[f64],
    diag: &[f64],
    y: &mut [f64; doubles::MAX_ROWS],
    out: &mut [f64; doubles::MAX_ROWS],
)
    requires m_le_max_rows { (m ≤ max_rows) × (length y.old ≡ max_rows) × (out.old ≡ replicate max_rows f0) }
    requires solid { Solid m number.now (matrix ut_starts.now ut_rows.now ut_coeffs.now)
        (matrix lt_starts.now lt_rows.now lt_coeffs.now) diag.now }
    ensures { out.new ≡ by_rows m number.now (dense_both m
        (matrix ut_starts.now ut_rows.now ut_coeffs.now)
        (matrix lt_starts.now lt_rows.now lt_coeffs.now) diag.now
        y.old) }
{
    lu_solve::dense(true, m, ut_starts, ut_rows, ut_coeffs, true, diag, y);
    lu_solve::dense(false, m, lt_starts, lt_rows, lt_coeffs, false, diag, y);
    by_rows(m, number, y, out);
}

// "the sum, from 0.0, kept rows rising, of coefficient * multiplier. A slack's column has one entry, 1.0."
fn column_sum(
    cstarts: &[usize],
    crows: &[usize],
    ccoeffs: &[f64],
    n: usize,
    v: usize,
    y: &[f64; doubles::MAX_ROWS],
) -> f64
    requires { (length y.now ≡ max_rows) × SumLent cstarts.now crows.now ccoeffs.now n v }
    ensures { result ≡ sum_on cstarts.now crows.now ccoeffs.now n y.now v }
{
    if v < n {
        let a = cstarts[v];
        let b = cstarts[v + 1];
        return sparse::dot(&crows[a..b], &ccoeffs[a..b], y);
    }
    let r = v - n;
    0.0 + 1.0 * y[r]
}

// "The price of place c with variable v: the cost of v … minus the sum", for every place, over the front of the
// scratch.
pub fn prices(
    costs: &[f64],
    n: usize,
    cstarts: &[usize],
    crows: &[usize],
    ccoeffs: &[f64],
    nb_vars: &[usize],
    y: &[f64; doubles::MAX_ROWS],
    out: &mut [f64; doubles::MAX_COLUMNS],
)
    requires n_in_bounds { (n ≤ length costs.now) × (n ≤ max_columns) × (n ≤ length nb_vars.now) × (n ≤ length out.old) }
    requires y_len { (length y.now ≡ max_rows) × SumsLent cstarts.now crows.now ccoeffs.now n nb_vars.now }
    ensures { out.new ≡ over (table n (λ c. price_on costs.now cstarts.now
        crows.now ccoeffs.now n y.now (nb_vars.now # c)))
        out.old }
{
    for c in 0..n {
        let v = nb_vars[c];
        out[c] = cost_of(costs, n, v) - column_sum(cstarts, crows, ccoeffs, n, v, y);
    }
}

// Cost * value of k variables, added in order.
fn add_costs(start: f64, costs: &[f64], n: usize, vars: &[usize], vals: &[f64], k: usize) -> f64
    requires { (n ≤ length costs.now) × (k ≤ length vars.now) × (k ≤ length vals.now) }
    ensures { result ≡ run (add_turn n costs.now vars.now vals.now) k start }
{
    let mut sum = start;
    for i in 0..k {
        sum = sum + cost_of(costs, n, vars[i]) * vals[i];
    }
    sum
}

// "The objective, from 0.0: cost * value of the basic variables by rows, then of the non-basic ones by places."
pub fn objective(
    costs: &[f64],
    n: usize,
    kept: &[usize],
    basic_vars: &[usize],
    basic_vals: &[f64],
    nb_vars: &[usize],
    nb_vals: &[f64],
) -> f64
    requires { (n ≤ length costs.now) × (length kept.now ≤ length basic_vars.now)
        × (length kept.now ≤ length basic_vals.now) × (n ≤ length nb_vars.now)
        × (n ≤ length nb_vals.now) }
    ensures { result ≡ objective_of (costed n costs.now kept.now)
        (valued basic_vars.now basic_vals.now nb_vars.now
        nb_vals.now) }
{
    let basics = add_costs(0.0, costs, n, basic_vars, basic_vals, kept.len());
    add_costs(basics, costs, n, nb_vars, nb_vals, n)
}
