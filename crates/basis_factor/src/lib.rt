// The factor of a basis: L and U by columns, column by column, with row pivots.
// From minilp 0.2.2, src/lu.rs (lu_factorize), Apache-2.0, changed: columns in their order, lent arrays.
#![tactic(auto)]

ghost use Rattle.std.specs.Prelude.{◌≡◌, ◌<◌, ◌≤◌, ◌+◌, length, set};
ghost use Rattle.doubles.specs.Limits.{max_rows};
ghost use Rattle.sparse.specs.Scattered.{sv};
ghost use Rattle.lu_factor_rules.specs.Factor.{column as column_of, nothing, factor_turn, factor_part};
ghost use Rattle.lu_factor_rules.specs.Factor.{factorize as factorizeOf, renumbered};
ghost use Rattle.lu_factor_rules.specs.Ready.{Solvable, Renumberable};
ghost use Rattle.lu_factor_rules.specs.Sound.{Sound};
ghost use Rattle.lu_factor_rules.specs.Counted.{parts_of, outcome_of, partial_of, none, counts_in, next_in, end_in, factor_in};
ghost use Rattle.lu_factor_rules.specs.Counted.{factor_at};
ghost use Rattle.basis_factor.specs.Basis.{Basis, columns_of};

use lu_factor_rules::{Counts, Ended, Factored};

// One column of the basis, which the vector holds: column i of L and U behind those before it.
fn column(
    m: usize,
    i: usize,
    number: &[usize; doubles::MAX_ROWS],
    starts: &[usize; doubles::MAX_ROWS + 1],
    lrows: &mut [usize; doubles::MAX_TRI_ENTRIES],
    lvals: &mut [f64; doubles::MAX_TRI_ENTRIES],
    urows: &mut [usize; doubles::MAX_TRI_ENTRIES],
    uvals: &mut [f64; doubles::MAX_TRI_ENTRIES],
    from: Counts,
    values: &mut [f64; doubles::PLACES],
    marks: &mut [bool; doubles::PLACES],
    list: &mut [usize; doubles::PLACES],
    count: usize,
) -> Factored
    requires { Solvable m i number.now starts.now (parts_of lrows.old lvals.old urows.old uvals.old from)
        (sv values.old marks.old list.old count) }
    ensures { outcome_of lrows.new lvals.new urows.new uvals.new result
        ≡ column_of m i number.now starts.now
        (parts_of lrows.old lvals.old urows.old uvals.old from)
        (sv values.old marks.old list.old count) }
{
    let c = lu_reduce::solve_column(
        m, number, i, starts, lrows, lvals, values, marks, list, count,
    );
    lu_gather::judge(number, i, values, list, c, lrows, lvals, urows, uvals, from)
}

// Column i is loaded and factored, and its pivot row noted.
fn turn(
    m: usize,
    i: usize,
    col_starts: &[usize],
    col_rows: &[usize],
    col_coeffs: &[f64],
    n: usize,
    basis: &[usize; doubles::MAX_ROWS],
    order: &mut [usize; doubles::MAX_ROWS],
    number: &mut [usize; doubles::MAX_ROWS],
    lstarts: &mut [usize; doubles::MAX_ROWS + 1],
    ustarts: &mut [usize; doubles::MAX_ROWS + 1],
    diag: &mut [f64; doubles::MAX_ROWS],
    lrows: &mut [usize; doubles::MAX_TRI_ENTRIES],
    lvals: &mut [f64; doubles::MAX_TRI_ENTRIES],
    urows: &mut [usize; doubles::MAX_TRI_ENTRIES],
    uvals: &mut [f64; doubles::MAX_TRI_ENTRIES],
    from: Counts,
) -> Factored
    requires i_lt_m { (i < m) × Basis m col_starts.now col_rows.now col_coeffs.now n basis.now }
    requires sound { Sound m (partial_of i order.old number.old lstarts.old ustarts.old diag.old
        (parts_of lrows.old lvals.old urows.old uvals.old from)) }
    ensures { next_in result (partial_of (i + 1) order.new number.new lstarts.new
        ustarts.new diag.new
        (parts_of lrows.new lvals.new urows.new uvals.new (counts_in from result)))
        ≡ factor_turn m (columns_of col_starts.now col_rows.now
        col_coeffs.now n basis.now)
        (partial_of i order.old number.old lstarts.old ustarts.old
        diag.old
        (parts_of lrows.old lvals.old urows.old uvals.old from)) }
{
    let mut values = [0.0; doubles::PLACES];
    let mut marks = [false; doubles::PLACES];
    let mut list = [0; doubles::PLACES];
    let v = basis[i];
    let c = basis_columns::load_column(
        &mut values,
        &mut marks,
        &mut list,
        col_starts,
        col_rows,
        col_coeffs,
        n,
        v,
    );
    let r = column(
        m,
        i,
        number,
        lstarts,
        lrows,
        lvals,
        urows,
        uvals,
        from,
        &mut values,
        &mut marks,
        &mut list,
        c,
    );
    match r {
        Factored::NotFinite => {
            return Factored::NotFinite;
        }
        Factored::Singular => {
            return Factored::Singular;
        }
        Factored::Added(p) => {
            let row = p.row;
            let counts = p.counts;
            order[i] = row;
            number[row] = i;
            lstarts[i + 1] = counts.lower;
            ustarts[i + 1] = counts.upper;
            diag[i] = p.value;
            return Factored::Added(p);
        }
    }
}

// All columns, from fresh arrays.
fn factor_all(
    m: usize,
    col_starts: &[usize],
    col_rows: &[usize],
    col_coeffs: &[f64],
    n: usize,
    basis: &[usize; doubles::MAX_ROWS],
    order: &mut [usize; doubles::MAX_ROWS],
    number: &mut [usize; doubles::MAX_ROWS],
    lstarts: &mut [usize; doubles::MAX_ROWS + 1],
    ustarts: &mut [usize; doubles::MAX_ROWS + 1],
    diag: &mut [f64; doubles::MAX_ROWS],
    lrows: &mut [usize; doubles::MAX_TRI_ENTRIES],
    lvals: &mut [f64; doubles::MAX_TRI_ENTRIES],
    urows: &mut [usize; doubles::MAX_TRI_ENTRIES],
    uvals: &mut [f64; doubles::MAX_TRI_ENTRIES],
) -> Ended
    requires m_le_max_rows { (m ≤ max_rows) × Basis m col_starts.now col_rows.now col_coeffs.now n basis.now }
    requires none_value { partial_of 0 order.old number.old lstarts.old ustarts.old diag.old
        (parts_of lrows.old lvals.old urows.old uvals.old none) ≡ nothing }
    ensures { end_in result (λ c. partial_of m order.new number.new lstarts.new
        ustarts.new diag.new (parts_of lrows.new lvals.new urows.new
        uvals.new c))
        ≡ factor_part m (columns_of col_starts.now col_rows.now
        col_coeffs.now n basis.now) }
{
    let mut counts = Counts { lower: 0, upper: 0 };
    for i in 0..m {
        let r = turn(
            m, i, col_starts, col_rows, col_coeffs, n, basis, order, number, lstarts, ustarts,
            diag, lrows, lvals, urows, uvals, counts,
        );
        match r {
            Factored::NotFinite => {
                return Ended::NotFinite;
            }
            Factored::Singular => {
                return Ended::Singular;
            }
            Factored::Added(p) => {
                counts = p.counts;
            }
        }
    }
    Ended::Done(counts)
}

// "At the end L's row numbers become pivot numbers."
fn renumber(
    number: &[usize; doubles::MAX_ROWS],
    n: usize,
    lrows: &mut [usize; doubles::MAX_TRI_ENTRIES],
)
    requires { Renumberable n lrows.old }
    ensures { lrows.new ≡ renumbered number.now n lrows.old }
{
    for row in lrows[..n].iter_mut() {
        *row = number[*row];
    }
}

// The factor of a basis of m columns, from fresh arrays; `number` holds MAX_ROWS in every cell. Where the
// answer isn't Done the arrays are of no use.
pub fn factorize(
    m: usize,
    col_starts: &[usize],
    col_rows: &[usize],
    col_coeffs: &[f64],
    n: usize,
    basis: &[usize; doubles::MAX_ROWS],
    order: &mut [usize; doubles::MAX_ROWS],
    number: &mut [usize; doubles::MAX_ROWS],
    lstarts: &mut [usize; doubles::MAX_ROWS + 1],
    ustarts: &mut [usize; doubles::MAX_ROWS + 1],
    diag: &mut [f64; doubles::MAX_ROWS],
    lrows: &mut [usize; doubles::MAX_TRI_ENTRIES],
    lvals: &mut [f64; doubles::MAX_TRI_ENTRIES],
    urows: &mut [usize; doubles::MAX_TRI_ENTRIES],
    uvals: &mut [f64; doubles::MAX_TRI_ENTRIES],
) -> Ended
    requires m_le_max_rows { (m ≤ max_rows) × Basis m col_starts.now col_rows.now col_coeffs.now n basis.now }
    requires none_value { partial_of 0 order.old number.old lstarts.old ustarts.old diag.old
        (parts_of lrows.old lvals.old urows.old uvals.old none) ≡ nothing }
    ensures { factor_in result (λ c. factor_at m order.new number.new lstarts.new
        ustarts.new diag.new lrows.new lvals.new urows.new
        uvals.new)
        ≡ factorizeOf m (columns_of col_starts.now col_rows.now
        col_coeffs.now n basis.now) }
{
    let r = factor_all(
        m, col_starts, col_rows, col_coeffs, n, basis, order, number, lstarts, ustarts, diag,
        lrows, lvals, urows, uvals,
    );
    match r {
        Ended::NotFinite => {
            return Ended::NotFinite;
        }
        Ended::Singular => {
            return Ended::Singular;
        }
        Ended::Done(c) => {
            renumber(number, c.lower, lrows);
            return Ended::Done(c);
        }
    }
}

// The basic variables after an exchange: the entering one in its row, the others as they were.
pub fn new_basis(
    basic_vars: &[usize],
    row: usize,
    enters: usize,
    basis: &mut [usize; doubles::MAX_ROWS],
)
    requires { (length basic_vars.now ≡ max_rows) × (length basis.old ≡ max_rows) × (row < max_rows) }
    ensures { basis.new ≡ set basic_vars.now row enters }
{
    basis.copy_from_slice(basic_vars);
    basis[row] = enters;
}
