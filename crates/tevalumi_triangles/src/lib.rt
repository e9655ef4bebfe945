// Triangular solves, for C and Rust. A slice is a pointer and a length.
#![tactic(auto)]

ghost use Rattle.std.specs.Prelude.{◌≡◌, true, false, not, [], eqb};
ghost use Rattle.lu_solve.specs.Solve.{tri};
ghost use Rattle.lu.specs.Result.{tri_solve_sparse, tri_solve_dense, solve_dense};
ghost use Rattle.face.specs.Face.{tri_result};

use face::TriAnswer;

// with_diag 0: all ones on the diagonal, and diag isn't read.
#[unsafe(no_mangle)]
pub extern "C" fn tevalumi_lower_sparse(
    size: usize,
    entries: usize,
    starts: &[usize],
    rows: &[usize],
    vals: &[f64],
    with_diag: usize,
    diag: &[f64],
    list: &mut [usize],
    listed: usize,
    values: &mut [f64],
) -> TriAnswer
    ensures { tri_result result values.new list.new ≡ tri_solve_sparse
        (tri true size starts.now rows.now vals.now (not (eqb with_diag 0))
        diag.now) entries list.old listed values.old }
{
    let has_diag = with_diag != 0;
    let a = lu::tri_solve_sparse(
        true, size, entries, starts, rows, vals, has_diag, diag, list, listed, values,
    );
    TriAnswer::from(a)
}

#[unsafe(no_mangle)]
pub extern "C" fn tevalumi_upper_sparse(
    size: usize,
    entries: usize,
    starts: &[usize],
    rows: &[usize],
    vals: &[f64],
    with_diag: usize,
    diag: &[f64],
    list: &mut [usize],
    listed: usize,
    values: &mut [f64],
) -> TriAnswer
    ensures { tri_result result values.new list.new ≡ tri_solve_sparse
        (tri false size starts.now rows.now vals.now (not (eqb with_diag 0))
        diag.now) entries list.old listed values.old }
{
    let has_diag = with_diag != 0;
    let a = lu::tri_solve_sparse(
        false, size, entries, starts, rows, vals, has_diag, diag, list, listed, values,
    );
    TriAnswer::from(a)
}

#[unsafe(no_mangle)]
pub extern "C" fn tevalumi_lower_dense(
    size: usize,
    entries: usize,
    starts: &[usize],
    rows: &[usize],
    vals: &[f64],
    with_diag: usize,
    diag: &[f64],
    values: &mut [f64],
) -> TriAnswer
    ensures { tri_result result values.new [] ≡ tri_solve_dense
        (tri true size starts.now rows.now vals.now (not (eqb with_diag 0))
        diag.now) entries values.old }
{
    let has_diag = with_diag != 0;
    let a = lu::tri_solve_dense(
        true, size, entries, starts, rows, vals, has_diag, diag, values,
    );
    TriAnswer::from(a)
}

#[unsafe(no_mangle)]
pub extern "C" fn tevalumi_upper_dense(
    size: usize,
    entries: usize,
    starts: &[usize],
    rows: &[usize],
    vals: &[f64],
    with_diag: usize,
    diag: &[f64],
    values: &mut [f64],
) -> TriAnswer
    ensures { tri_result result values.new [] ≡ tri_solve_dense
        (tri false size starts.now rows.now vals.now (not (eqb with_diag 0))
        diag.now) entries values.old }
{
    let has_diag = with_diag != 0;
    let a = lu::tri_solve_dense(
        false, size, entries, starts, rows, vals, has_diag, diag, values,
    );
    TriAnswer::from(a)
}

// The lower triangle, then the upper one, of the same size.
#[unsafe(no_mangle)]
pub extern "C" fn tevalumi_solve_dense(
    size: usize,
    lower_entries: usize,
    lower_starts: &[usize],
    lower_rows: &[usize],
    lower_vals: &[f64],
    lower_with_diag: usize,
    lower_diag: &[f64],
    upper_entries: usize,
    upper_starts: &[usize],
    upper_rows: &[usize],
    upper_vals: &[f64],
    upper_with_diag: usize,
    upper_diag: &[f64],
    values: &mut [f64],
) -> TriAnswer
    ensures { tri_result result values.new [] ≡ solve_dense
        (tri true size lower_starts.now lower_rows.now lower_vals.now
        (not (eqb lower_with_diag 0)) lower_diag.now) lower_entries
        (tri false size upper_starts.now upper_rows.now upper_vals.now
        (not (eqb upper_with_diag 0)) upper_diag.now) upper_entries values.old }
{
    let lower_has_diag = lower_with_diag != 0;
    let upper_has_diag = upper_with_diag != 0;
    let a = lu::solve_dense(
        size,
        lower_entries,
        lower_starts,
        lower_rows,
        lower_vals,
        lower_has_diag,
        lower_diag,
        upper_entries,
        upper_starts,
        upper_rows,
        upper_vals,
        upper_has_diag,
        upper_diag,
        values,
    );
    TriAnswer::from(a)
}
