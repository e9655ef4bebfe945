// docs/RULES-02.md, "Beyond: reprice", parts 1 and 2 where eta columns are stored: the basis as it stands, factored in
// lent arrays that aren't the state's, and the multipliers out of that factor. From minilp 0.2.2, src/solver.rs
// (BasisSolver::reset and recalc_obj_coeffs), Apache-2.0, changed: when it is called, and the arrays are lent.
#![tactic(auto)]

ghost use Rattle.std.specs.Prelude.{◌≡◌, ◌≤◌, length, replicate};
ghost use Rattle.doubles.specs.Num.{f0};
ghost use Rattle.doubles.specs.Limits.{max_rows};
ghost use Rattle.lu_factor_rules.specs.Factor.{matrix, nothing, factorize};
ghost use Rattle.lu_factor_rules.specs.Counted.{parts_of, partial_of, none, factor_in, factor_at};
ghost use Rattle.basis_factor.specs.Basis.{Basis, columns_of};
ghost use Rattle.reprice_factor.specs.Mults.{costs_of, multipliers_of, Solves};

// "the basis is factored": the columns of the basic variables, from fresh arrays; `number` holds MAX_ROWS in every
// cell. Where the answer isn't Done the arrays are of no use.
pub fn factor_now(
    m: usize,
    n: usize,
    basic_vars: &[usize],
    cstarts: &[usize],
    crows: &[usize],
    ccoeffs: &[f64],
    order: &mut [usize; doubles::MAX_ROWS],
    number: &mut [usize; doubles::MAX_ROWS],
    lstarts: &mut [usize; doubles::MAX_ROWS + 1],
    ustarts: &mut [usize; doubles::MAX_ROWS + 1],
    diag: &mut [f64; doubles::MAX_ROWS],
    lrows: &mut [usize; doubles::MAX_TRI_ENTRIES],
    lvals: &mut [f64; doubles::MAX_TRI_ENTRIES],
    urows: &mut [usize; doubles::MAX_TRI_ENTRIES],
    uvals: &mut [f64; doubles::MAX_TRI_ENTRIES],
) -> lu_factor_rules::Ended
    requires m_le_max_rows { (m ≤ max_rows) × (length basic_vars.now ≡ max_rows)
        × Basis m cstarts.now crows.now ccoeffs.now n basic_vars.now }
    requires none_value { partial_of 0 order.old number.old lstarts.old ustarts.old diag.old
        (parts_of lrows.old lvals.old urows.old uvals.old none) ≡ nothing }
    ensures { factor_in result (λ _. factor_at m order.new number.new lstarts.new
        ustarts.new diag.new lrows.new lvals.new urows.new
        uvals.new)
        ≡ factorize m (columns_of cstarts.now crows.now ccoeffs.now n
        basic_vars.now) }
{
    let mut basis = [0usize; doubles::MAX_ROWS];
    // row 0 takes its own variable: every row does
    let own = basic_vars[0];
    basis_factor::new_basis(basic_vars, 0, own, &mut basis);
    basis_factor::factorize(
        m, cstarts, crows, ccoeffs, n, &basis, order, number, lstarts, ustarts, diag, lrows, lvals,
        urows, uvals,
    )
}

// The solves of part 2 with the transposes of U and of L, which are made here.
fn solve_now(
    m: usize,
    number: &[usize; doubles::MAX_ROWS],
    lstarts: &[usize; doubles::MAX_ROWS + 1],
    ustarts: &[usize; doubles::MAX_ROWS + 1],
    diag: &[f64; doubles::MAX_ROWS],
    lrows: &[usize; doubles::MAX_TRI_ENTRIES],
    lvals: &[f64; doubles::MAX_TRI_ENTRIES],
    urows: &[usize; doubles::MAX_TRI_ENTRIES],
    uvals: &[f64; doubles::MAX_TRI_ENTRIES],
    y: &mut [f64; doubles::MAX_ROWS],
    out: &mut [f64; doubles::MAX_ROWS],
)
    requires y_len { (length y.old ≡ max_rows) × (out.old ≡ replicate max_rows f0) }
    requires solves { Solves m number.now (matrix lstarts.now lrows.now lvals.now)
        (matrix ustarts.now urows.now uvals.now) diag.now }
    ensures { out.new ≡ multipliers_of m number.now
        (matrix lstarts.now lrows.now lvals.now)
        (matrix ustarts.now urows.now uvals.now) diag.now
        y.old }
{
    let mut us = [0usize; doubles::MAX_ROWS + 1];
    let mut ur = [0usize; doubles::MAX_TRI_ENTRIES];
    let mut uv = [0.0; doubles::MAX_TRI_ENTRIES];
    lu_transpose::transpose(m, ustarts, urows, uvals, &mut us, &mut ur, &mut uv);
    let mut ls = [0usize; doubles::MAX_ROWS + 1];
    let mut lr = [0usize; doubles::MAX_TRI_ENTRIES];
    let mut lv = [0.0; doubles::MAX_TRI_ENTRIES];
    lu_transpose::transpose(m, lstarts, lrows, lvals, &mut ls, &mut lr, &mut lv);
    reprice_numbers::solve_multipliers(m, number, &us, &ur, &uv, &ls, &lr, &lv, diag, y, out);
}

// The multipliers out of a factor that isn't stored, into fresh cells.
pub fn multipliers_now(
    m: usize,
    n: usize,
    costs: &[f64],
    basic_vars: &[usize],
    number: &[usize; doubles::MAX_ROWS],
    lstarts: &[usize; doubles::MAX_ROWS + 1],
    ustarts: &[usize; doubles::MAX_ROWS + 1],
    diag: &[f64; doubles::MAX_ROWS],
    lrows: &[usize; doubles::MAX_TRI_ENTRIES],
    lvals: &[f64; doubles::MAX_TRI_ENTRIES],
    urows: &[usize; doubles::MAX_TRI_ENTRIES],
    uvals: &[f64; doubles::MAX_TRI_ENTRIES],
    out: &mut [f64; doubles::MAX_ROWS],
)
    requires m_le_max_rows { (m ≤ max_rows) × (n ≤ length costs.now) × (m ≤ length basic_vars.now)
        × (out.old ≡ replicate max_rows f0) }
    requires solves { Solves m number.now (matrix lstarts.now lrows.now lvals.now)
        (matrix ustarts.now urows.now uvals.now) diag.now }
    ensures { out.new ≡ multipliers_of m number.now
        (matrix lstarts.now lrows.now lvals.now)
        (matrix ustarts.now urows.now uvals.now) diag.now
        (costs_of m n costs.now basic_vars.now) }
{
    let mut y = [0.0; doubles::MAX_ROWS];
    reprice_numbers::basic_costs(costs, n, basic_vars, m, &mut y);
    solve_now(
        m, number, lstarts, ustarts, diag, lrows, lvals, urows, uvals, &mut y, out,
    );
}
