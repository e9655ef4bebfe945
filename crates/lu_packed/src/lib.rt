// A factor in two lent arrays: its solves, which read its parts where they stand, and the writing of it.
#![tactic(auto)]

ghost use Rattle.std.specs.Prelude.{◌≡◌, ◌+◌, ◌≤◌, length};
ghost use Rattle.doubles.specs.Limits.{max_rows, max_tri_entries};
ghost use Rattle.sparse.specs.Scattered.{sv};
ghost use Rattle.lu_factor_rules.specs.Factor.{matrix};
ghost use Rattle.lu_factor_rules.specs.Counted.{factor_at};
ghost use Rattle.lu_factor_rules.specs.Transpose.{transpose as transposeOf};
ghost use Rattle.lu_factor_rules.specs.Ready.{Vector};
ghost use Rattle.lu_factor_rules.specs.Packed.{all_factor_numbers, all_factor_coeffs, order_in, number_in, lower_in, upper_in};
ghost use Rattle.lu_factor_rules.specs.Packed.{lower_t_in, upper_t_in, diag_in, packed_solve, packed_solve_transp};
ghost use Rattle.lu_factor_rules.specs.Packed.{packed_numbers, packed_coeffs};
ghost use Rattle.lu_transpose.specs.Read.{Read};
ghost use Rattle.lu_apply.specs.Ask.{Solid};
ghost use Rattle.lu_packed.specs.Written.{written, lent, matrix_written, Room};

// The factor: rows to pivot numbers, L, U.
pub fn solve(
    m: usize,
    numbers: &[usize],
    coeffs: &[f64],
    values: &mut [f64; doubles::PLACES],
    marks: &mut [bool; doubles::PLACES],
    list: &mut [usize; doubles::PLACES],
    count: usize,
) -> usize
    requires factor_numbers_in_bounds { (all_factor_numbers ≤ length numbers.now) × (all_factor_coeffs ≤ length coeffs.now) }
    requires solid { Solid m (number_in numbers.now) (lower_in numbers.now coeffs.now)
        (upper_in numbers.now coeffs.now) (diag_in coeffs.now) }
    requires vector { Vector m (sv values.old marks.old list.old count) }
    ensures { sv values.new marks.new list.new result
        ≡ packed_solve m numbers.now coeffs.now
        (sv values.old marks.old list.old count) }
{
    lu_apply::solve(
        m,
        &numbers[lu_factor_rules::NUMBER..lu_factor_rules::NUMBER_END],
        &numbers[lu_factor_rules::L_STARTS..lu_factor_rules::L_STARTS_END],
        &numbers[lu_factor_rules::L_ROWS..lu_factor_rules::L_ROWS_END],
        &coeffs[lu_factor_rules::L_COEFFS..lu_factor_rules::L_COEFFS_END],
        &numbers[lu_factor_rules::U_STARTS..lu_factor_rules::U_STARTS_END],
        &numbers[lu_factor_rules::U_ROWS..lu_factor_rules::U_ROWS_END],
        &coeffs[lu_factor_rules::U_COEFFS..lu_factor_rules::U_COEFFS_END],
        &coeffs[lu_factor_rules::DIAG..lu_factor_rules::DIAG_END],
        values,
        marks,
        list,
        count,
    )
}

// The factor transposed: the transpose of U, that of L, pivot numbers back to rows.
pub fn solve_transp(
    m: usize,
    numbers: &[usize],
    coeffs: &[f64],
    values: &mut [f64; doubles::PLACES],
    marks: &mut [bool; doubles::PLACES],
    list: &mut [usize; doubles::PLACES],
    count: usize,
) -> usize
    requires factor_numbers_in_bounds { (all_factor_numbers ≤ length numbers.now) × (all_factor_coeffs ≤ length coeffs.now) }
    requires solid { Solid m (order_in numbers.now) (upper_t_in numbers.now coeffs.now)
        (lower_t_in numbers.now coeffs.now) (diag_in coeffs.now) }
    requires vector { Vector m (sv values.old marks.old list.old count) }
    ensures { sv values.new marks.new list.new result
        ≡ packed_solve_transp m numbers.now coeffs.now
        (sv values.old marks.old list.old count) }
{
    lu_apply::solve_transp(
        m,
        &numbers[lu_factor_rules::ORDER..lu_factor_rules::ORDER_END],
        &numbers[lu_factor_rules::UT_STARTS..lu_factor_rules::UT_STARTS_END],
        &numbers[lu_factor_rules::UT_ROWS..lu_factor_rules::UT_ROWS_END],
        &coeffs[lu_factor_rules::UT_COEFFS..lu_factor_rules::UT_COEFFS_END],
        &numbers[lu_factor_rules::LT_STARTS..lu_factor_rules::LT_STARTS_END],
        &numbers[lu_factor_rules::LT_ROWS..lu_factor_rules::LT_ROWS_END],
        &coeffs[lu_factor_rules::LT_COEFFS..lu_factor_rules::LT_COEFFS_END],
        &coeffs[lu_factor_rules::DIAG..lu_factor_rules::DIAG_END],
        values,
        marks,
        list,
        count,
    )
}

// An array over the cells of `to` from `at` on.
pub fn put<T: Copy>(from: &[T], at: usize, to: &mut [T])
    requires { at + length from.now ≤ length to.old }
    ensures { to.new ≡ written at from.now to.old }
{
    for k in 0..from.len() {
        to[at + k] = from[k];
    }
}

// A matrix's three arrays at their places.
fn put_matrix(
    starts: &[usize; doubles::MAX_ROWS + 1],
    rows: &[usize; doubles::MAX_TRI_ENTRIES],
    vals: &[f64; doubles::MAX_TRI_ENTRIES],
    starts_at: usize,
    rows_at: usize,
    vals_at: usize,
    numbers: &mut [usize],
    coeffs: &mut [f64],
)
    requires { Room starts_at rows_at vals_at (lent numbers.old coeffs.old) }
    ensures coeffs_after { lent numbers.new coeffs.new ≡ matrix_written starts_at rows_at vals_at
        (matrix starts.now rows.now vals.now)
        (lent numbers.old coeffs.old) }
    ensures starts_len { (length starts.now ≡ max_rows + 1) × (length rows.now ≡ max_tri_entries) ×
        (length vals.now ≡ max_tri_entries) }
{
    put(starts, starts_at, numbers);
    put(rows, rows_at, numbers);
    put(vals, vals_at, coeffs);
}

// A matrix's transpose at its places.
pub fn put_transpose(
    m: usize,
    starts: &[usize; doubles::MAX_ROWS + 1],
    rows: &[usize; doubles::MAX_TRI_ENTRIES],
    vals: &[f64; doubles::MAX_TRI_ENTRIES],
    starts_at: usize,
    rows_at: usize,
    vals_at: usize,
    numbers: &mut [usize],
    coeffs: &mut [f64],
)
    requires read { Read m (matrix starts.now rows.now vals.now) }
    requires room { Room starts_at rows_at vals_at (lent numbers.old coeffs.old) }
    ensures { lent numbers.new coeffs.new ≡ matrix_written starts_at rows_at vals_at
        (transposeOf m (matrix starts.now rows.now vals.now))
        (lent numbers.old coeffs.old) }
{
    let mut s = [0; doubles::MAX_ROWS + 1];
    let mut r = [0; doubles::MAX_TRI_ENTRIES];
    let mut v = [0.0; doubles::MAX_TRI_ENTRIES];
    lu_transpose::transpose(m, starts, rows, vals, &mut s, &mut r, &mut v);
    put_matrix(&s, &r, &v, starts_at, rows_at, vals_at, numbers, coeffs);
}

// The factor and the transposes of L and U over the fronts of the two arrays.
pub fn store(
    m: usize,
    order: &[usize; doubles::MAX_ROWS],
    number: &[usize; doubles::MAX_ROWS],
    lstarts: &[usize; doubles::MAX_ROWS + 1],
    ustarts: &[usize; doubles::MAX_ROWS + 1],
    diag: &[f64; doubles::MAX_ROWS],
    lrows: &[usize; doubles::MAX_TRI_ENTRIES],
    lvals: &[f64; doubles::MAX_TRI_ENTRIES],
    urows: &[usize; doubles::MAX_TRI_ENTRIES],
    uvals: &[f64; doubles::MAX_TRI_ENTRIES],
    numbers: &mut [usize],
    coeffs: &mut [f64],
)
    requires factor_numbers_in_bounds { (all_factor_numbers ≤ length numbers.old) × (all_factor_coeffs ≤ length coeffs.old) }
    requires read { Read m (matrix lstarts.now lrows.now lvals.now) }
    requires read_2 { Read m (matrix ustarts.now urows.now uvals.now) }
    ensures numbers_after { numbers.new ≡ packed_numbers (factor_at m order.now number.now
        lstarts.now ustarts.now diag.now lrows.now lvals.now
        urows.now uvals.now) numbers.old }
    ensures coeffs_after { coeffs.new ≡ packed_coeffs (factor_at m order.now number.now
        lstarts.now ustarts.now diag.now lrows.now lvals.now
        urows.now uvals.now) coeffs.old }
{
    put(order, lu_factor_rules::ORDER, numbers);
    put(number, lu_factor_rules::NUMBER, numbers);
    put_matrix(
        lstarts,
        lrows,
        lvals,
        lu_factor_rules::L_STARTS,
        lu_factor_rules::L_ROWS,
        lu_factor_rules::L_COEFFS,
        numbers,
        coeffs,
    );
    put_matrix(
        ustarts,
        urows,
        uvals,
        lu_factor_rules::U_STARTS,
        lu_factor_rules::U_ROWS,
        lu_factor_rules::U_COEFFS,
        numbers,
        coeffs,
    );
    put_transpose(
        m,
        lstarts,
        lrows,
        lvals,
        lu_factor_rules::LT_STARTS,
        lu_factor_rules::LT_ROWS,
        lu_factor_rules::LT_COEFFS,
        numbers,
        coeffs,
    );
    put_transpose(
        m,
        ustarts,
        urows,
        uvals,
        lu_factor_rules::UT_STARTS,
        lu_factor_rules::UT_ROWS,
        lu_factor_rules::UT_COEFFS,
        numbers,
        coeffs,
    );
    put(diag, lu_factor_rules::DIAG, coeffs);
}
