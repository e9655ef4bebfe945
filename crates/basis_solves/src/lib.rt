// The solves of a step: the entering column, the leaving row, and the helper and tau of the norms.
// From minilp 0.2.2, src/solver.rs, BasisSolver, calc_col_coeffs, calc_row_coeffs, update_primal_sq_norms and
// update_dual_sq_norms, Apache-2.0, changed: the vectors are lent arrays, fresh at entry, the factor and the etas are lent arrays too, and no
// factor stands for the identity.
#![tactic(auto)]

ghost use Rattle.std.specs.Prelude.{◌≡◌, Bool, List, [], ℕ, ◌<◌, ◌≤◌, length};
ghost use Rattle.doubles.specs.Num.{f1};
ghost use Rattle.doubles.specs.Limits.{places};
ghost use Rattle.sparse.specs.Scattered.{sv, blank, put_at, Within, relisted, Fresh};
ghost use Rattle.rules.specs.Plan.{Problem, n_of, m_of};
ghost use Rattle.rules.specs.Parts.{rowed, etas_of, factored_of};
ghost use Rattle.rules.specs.Basis.{factor_solve, factor_solve_transp, column_coeffs, inv_row, tau_of, helper_of};
ghost use Rattle.rules.specs.Basis as Basis;
ghost use Rattle.rules.specs.Invariant.{FactorFits, Vector};
ghost use Rattle.basis_columns.specs.Columns.{ByColumns};
ghost use Rattle.basis_columns.specs.Loading.{column_on, ColumnLent};
ghost use Rattle.basis_etas.specs.Store.{Readable};
ghost use Rattle.basis_solves.specs.Lent.{mapped, Transposed, RowSolve};

// The factor, or the identity.
fn factor_solve(
    values: &mut [f64; doubles::PLACES],
    marks: &mut [bool; doubles::PLACES],
    list: &mut [usize; doubles::PLACES],
    count: usize,
    m: usize,
    factored: bool,
    factor_numbers: &[usize],
    factor_coeffs: &[f64],
) -> usize
    requires factor_fits { FactorFits m (factored_of factored 0 factor_numbers.now factor_coeffs.now) }
    requires vector { Vector m (sv values.old marks.old list.old count) }
    ensures { (k : ℕ) → sv values.new marks.new list.new result ≡ factor_solve m
        (factored_of factored k factor_numbers.now factor_coeffs.now)
        (sv values.old marks.old list.old count) }
{
    if factored {
        return lu_packed::solve(m, factor_numbers, factor_coeffs, values, marks, list, count);
    }
    count
}

fn factor_solve_transp(
    values: &mut [f64; doubles::PLACES],
    marks: &mut [bool; doubles::PLACES],
    list: &mut [usize; doubles::PLACES],
    count: usize,
    m: usize,
    factored: bool,
    factor_numbers: &[usize],
    factor_coeffs: &[f64],
) -> usize
    requires factor_fits { FactorFits m (factored_of factored 0 factor_numbers.now factor_coeffs.now) }
    requires vector { Vector m (sv values.old marks.old list.old count) }
    ensures { (k : ℕ) → sv values.new marks.new list.new result ≡ factor_solve_transp m
        (factored_of factored k factor_numbers.now factor_coeffs.now)
        (sv values.old marks.old list.old count) }
{
    if factored {
        return lu_packed::solve_transp(
            m,
            factor_numbers,
            factor_coeffs,
            values,
            marks,
            list,
            count,
        );
    }
    count
}

// The column solve: the factor, then the etas.
fn solve(
    values: &mut [f64; doubles::PLACES],
    marks: &mut [bool; doubles::PLACES],
    list: &mut [usize; doubles::PLACES],
    count: usize,
    m: usize,
    factored: bool,
    factor_numbers: &[usize],
    factor_coeffs: &[f64],
    leaving: &[usize],
    eta_starts: &[usize],
    eta_rows: &[usize],
    eta_coeffs: &[f64],
    eta_count: usize,
) -> usize
    requires factor_fits { FactorFits m (factored_of factored 0 factor_numbers.now factor_coeffs.now) }
    requires vector { Vector m (sv values.old marks.old list.old count)
        × Readable (etas_of leaving.now eta_starts.now eta_rows.now eta_coeffs.now) eta_count }
    ensures { (k : ℕ) → sv values.new marks.new list.new result ≡ Basis.solve m
        (factored_of factored k factor_numbers.now factor_coeffs.now)
        (etas_of leaving.now eta_starts.now eta_rows.now
        eta_coeffs.now) eta_count
        (sv values.old marks.old list.old count) }
{
    let c = factor_solve(
        values,
        marks,
        list,
        count,
        m,
        factored,
        factor_numbers,
        factor_coeffs,
    );
    basis_etas::solve_etas(
        values, marks, list, c, leaving, eta_starts, eta_rows, eta_coeffs, eta_count,
    )
}

// The row solve: the etas in reverse, then the factor. What the etas leave is asked to list rows of the factor.
fn solve_transp(
    values: &mut [f64; doubles::PLACES],
    marks: &mut [bool; doubles::PLACES],
    list: &mut [usize; doubles::PLACES],
    count: usize,
    m: usize,
    factored: bool,
    factor_numbers: &[usize],
    factor_coeffs: &[f64],
    leaving: &[usize],
    eta_starts: &[usize],
    eta_rows: &[usize],
    eta_coeffs: &[f64],
    eta_count: usize,
) -> usize
    requires { Transposed m (etas_of leaving.now eta_starts.now eta_rows.now eta_coeffs.now) eta_count
        (factored_of factored 0 factor_numbers.now factor_coeffs.now) (sv values.old marks.old list.old count) }
    ensures { (k : ℕ) → sv values.new marks.new list.new result ≡ Basis.solve_transp m
        (factored_of factored k factor_numbers.now factor_coeffs.now)
        (etas_of leaving.now eta_starts.now eta_rows.now
        eta_coeffs.now) eta_count
        (sv values.old marks.old list.old count) }
{
    let c = basis_etas::solve_etas_transp(
        values, marks, list, count, leaving, eta_starts, eta_rows, eta_coeffs, eta_count,
    );
    factor_solve_transp(
        values,
        marks,
        list,
        c,
        m,
        factored,
        factor_numbers,
        factor_coeffs,
    )
}

// inv_basis_row_coeffs: the unit vector of the leaving row, solved, on a fresh vector.
pub fn inv_row(
    values: &mut [f64; doubles::PLACES],
    marks: &mut [bool; doubles::PLACES],
    list: &mut [usize; doubles::PLACES],
    factored: bool,
    factor_numbers: &[usize],
    factor_coeffs: &[f64],
    leaving: &[usize],
    eta_starts: &[usize],
    eta_rows: &[usize],
    eta_coeffs: &[f64],
    eta_count: usize,
    m: usize,
    row: usize,
) -> usize
    requires fresh { Fresh (sv values.old marks.old list.old 0) × (row < places) }
    requires transposed { Transposed m (etas_of leaving.now eta_starts.now eta_rows.now eta_coeffs.now) eta_count
        (factored_of factored 0 factor_numbers.now factor_coeffs.now) (put_at blank row f1) }
    ensures { (P : Problem) (k : ℕ) → m_of P ≡ m → sv values.new marks.new list.new result
        ≡ inv_row P (mapped [] (etas_of leaving.now eta_starts.now eta_rows.now
        eta_coeffs.now) eta_count
        (factored_of factored k factor_numbers.now factor_coeffs.now)) row }
{
    let unit = sparse::put_at(values, marks, list, 0, row, 1.0);
    solve_transp(
        values,
        marks,
        list,
        unit,
        m,
        factored,
        factor_numbers,
        factor_coeffs,
        leaving,
        eta_starts,
        eta_rows,
        eta_coeffs,
        eta_count,
    )
}

// 02, Ask 8: tau, the row solve's result listed anew on a fresh vector, then solved as a column is.
pub fn tau(
    values: &mut [f64; doubles::PLACES],
    marks: &mut [bool; doubles::PLACES],
    list: &mut [usize; doubles::PLACES],
    from: &[f64; doubles::PLACES],
    from_list: &[usize; doubles::PLACES],
    from_count: usize,
    factored: bool,
    factor_numbers: &[usize],
    factor_coeffs: &[f64],
    leaving: &[usize],
    eta_starts: &[usize],
    eta_rows: &[usize],
    eta_coeffs: &[f64],
    eta_count: usize,
    m: usize,
) -> usize
    requires fresh { Fresh (sv values.old marks.old list.old 0) × (from_count ≤ places) × Within places from_count
        from_list.now }
    requires vector { Vector m (relisted (sv from.now [] from_list.now from_count))
        × Readable (etas_of leaving.now eta_starts.now eta_rows.now eta_coeffs.now) eta_count
        × FactorFits m (factored_of factored 0 factor_numbers.now factor_coeffs.now) }
    ensures { (P : Problem) (k : ℕ) (b : List Bool) → m_of P ≡ m → sv values.new marks.new
        list.new result ≡ tau_of P
        (mapped [] (etas_of leaving.now eta_starts.now eta_rows.now
        eta_coeffs.now) eta_count
        (factored_of factored k factor_numbers.now factor_coeffs.now))
        (sv from.now b from_list.now from_count) }
{
    let listed = sparse::relist(values, marks, list, from, from_list, from_count);
    solve(
        values,
        marks,
        list,
        listed,
        m,
        factored,
        factor_numbers,
        factor_coeffs,
        leaving,
        eta_starts,
        eta_rows,
        eta_coeffs,
        eta_count,
    )
}

// sq_norms_update_helper, with the maps before the exchange: the entering column, solved, and the rows combined.
pub fn helper(
    values: &mut [f64; doubles::PLACES],
    marks: &mut [bool; doubles::PLACES],
    list: &mut [usize; doubles::PLACES],
    from: &[f64; doubles::PLACES],
    from_list: &[usize; doubles::PLACES],
    from_count: usize,
    factored: bool,
    factor_numbers: &[usize],
    factor_coeffs: &[f64],
    leaving: &[usize],
    eta_starts: &[usize],
    eta_rows: &[usize],
    eta_coeffs: &[f64],
    eta_count: usize,
    n: usize,
    var_states: &[usize],
    starts: &[usize],
    cols: &[usize],
    coeffs: &[f64],
    kept: &[usize],
) -> usize
    requires fresh { Fresh (sv values.old marks.old list.old 0) × (from_count ≤ places) × Within places from_count
        from_list.now }
    requires row_solve { RowSolve (rowed n starts.now cols.now coeffs.now kept.now) (length var_states.now)
        (etas_of leaving.now eta_starts.now eta_rows.now eta_coeffs.now) eta_count
        (factored_of factored 0 factor_numbers.now factor_coeffs.now)
        (relisted (sv from.now [] from_list.now from_count)) }
    ensures { (k : ℕ) (m : List Bool) → sv values.new marks.new list.new result
        ≡ helper_of
        (rowed n starts.now cols.now coeffs.now kept.now)
        (mapped var_states.now (etas_of leaving.now eta_starts.now
        eta_rows.now eta_coeffs.now) eta_count
        (factored_of factored k factor_numbers.now factor_coeffs.now))
        (sv from.now m from_list.now from_count) }
{
    let mut y = [0.0; doubles::PLACES];
    let mut y_marks = [false; doubles::PLACES];
    let mut y_list = [0usize; doubles::PLACES];
    let again = sparse::relist(
        &mut y,
        &mut y_marks,
        &mut y_list,
        from,
        from_list,
        from_count,
    );
    let c = solve_transp(
        &mut y,
        &mut y_marks,
        &mut y_list,
        again,
        kept.len(),
        factored,
        factor_numbers,
        factor_coeffs,
        leaving,
        eta_starts,
        eta_rows,
        eta_coeffs,
        eta_count,
    );
    basis_rows::combine(
        values, marks, list, &y, &y_list, c, n, var_states, starts, cols, coeffs, kept,
    )
}

// The entering variable's column, solved. `ByColumns` says which matrix stands in the arrays.
pub fn col_coeffs(
    values: &mut [f64; doubles::PLACES],
    marks: &mut [bool; doubles::PLACES],
    list: &mut [usize; doubles::PLACES],
    col_starts: &[usize],
    col_rows: &[usize],
    col_coeffs: &[f64],
    factored: bool,
    factor_numbers: &[usize],
    factor_coeffs: &[f64],
    leaving: &[usize],
    eta_starts: &[usize],
    eta_rows: &[usize],
    eta_coeffs: &[f64],
    eta_count: usize,
    n: usize,
    m: usize,
    v: usize,
) -> usize
    requires fresh { Fresh (sv values.old marks.old list.old 0) × ColumnLent col_starts.now col_rows.now
        col_coeffs.now n v }
    requires vector { Vector m (column_on col_starts.now col_rows.now col_coeffs.now n v)
        × Readable (etas_of leaving.now eta_starts.now eta_rows.now eta_coeffs.now) eta_count
        × FactorFits m (factored_of factored 0 factor_numbers.now factor_coeffs.now) }
    ensures { (P : Problem) (k : ℕ) → n_of P ≡ n → m_of P ≡ m → ByColumns P col_starts.now
        col_rows.now col_coeffs.now
        → sv values.new marks.new list.new result ≡ column_coeffs P
        (mapped [] (etas_of leaving.now eta_starts.now eta_rows.now
        eta_coeffs.now) eta_count
        (factored_of factored k factor_numbers.now factor_coeffs.now)) v }
{
    let c = basis_columns::load_column(values, marks, list, col_starts, col_rows, col_coeffs, n, v);
    solve(
        values,
        marks,
        list,
        c,
        m,
        factored,
        factor_numbers,
        factor_coeffs,
        leaving,
        eta_starts,
        eta_rows,
        eta_coeffs,
        eta_count,
    )
}
