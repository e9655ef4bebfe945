// Public solves of a triangle that is stored by columns, sparse and dense. They ask nothing of their
// caller: what cannot be solved is refused, and a refusal changes nothing.
// From minilp 0.2.2, src/lu.rs (tri_solve_sparse, tri_solve_dense, solve_dense), Apache-2.0, changed.
#![tactic(auto)]

ghost use Rattle.std.specs.Prelude.{◌≡◌, true, false, []};
ghost use Rattle.lu_solve.specs.Solve.{tri};
ghost use Rattle.lu.specs.Result.{result_of, tri_solve_sparse, tri_solve_dense, solve_dense};

// 01's 0 to 3. Solved carries how many places are listed afterwards; in a dense solve, all.
#[derive(Clone, Copy)]
pub enum Answer {
    Solved(usize),
    BadTriangle,
    NotFinite,
    BadList,
}

// The first `listed` cells of the list are places whose values count; all others count as 0.0. The
// off-diagonal rows of column j are rows[starts[j]..starts[j + 1]], in any order.
pub fn tri_solve_sparse(
    lower: bool,
    size: usize,
    entries: usize,
    starts: &[usize],
    rows: &[usize],
    vals: &[f64],
    has_diag: bool,
    diag: &[f64],
    list: &mut [usize],
    listed: usize,
    values: &mut [f64],
) -> Answer
    ensures { result_of result values.new list.new ≡ tri_solve_sparse
        (tri lower size starts.now rows.now vals.now has_diag diag.now)
        entries list.old listed values.old }
{
    if !lu_gate::triangle_ok(
        lower,
        size,
        entries,
        starts,
        rows,
        vals,
        has_diag,
        diag,
        values.len(),
    ) {
        return Answer::BadTriangle;
    }
    if list.len() < size {
        return Answer::BadTriangle;
    }
    if list.len() < listed {
        return Answer::BadTriangle;
    }
    let numbers = lu_gate::numbers_ok(size, entries, vals, has_diag, diag);
    let held = lu_gate::listed_ok(size, list, listed, values);
    let named = lu_gate::list_ok(size, list, listed);
    if !(numbers & held) {
        return Answer::NotFinite;
    }
    if !named {
        return Answer::BadList;
    }
    let n = lu_solve::sparse(
        lower, size, starts, rows, vals, has_diag, diag, list, listed, values,
    );
    Answer::Solved(n)
}

// All places count: the dense call has no list.
pub fn tri_solve_dense(
    lower: bool,
    size: usize,
    entries: usize,
    starts: &[usize],
    rows: &[usize],
    vals: &[f64],
    has_diag: bool,
    diag: &[f64],
    values: &mut [f64],
) -> Answer
    ensures { result_of result values.new [] ≡ tri_solve_dense
        (tri lower size starts.now rows.now vals.now has_diag diag.now)
        entries values.old }
{
    if !lu_gate::triangle_ok(
        lower,
        size,
        entries,
        starts,
        rows,
        vals,
        has_diag,
        diag,
        values.len(),
    ) {
        return Answer::BadTriangle;
    }
    if !lu_gate::numbers_ok(size, entries, vals, has_diag, diag) {
        return Answer::NotFinite;
    }
    if !lu_gate::all_finite(values, size) {
        return Answer::NotFinite;
    }
    lu_solve::dense(lower, size, starts, rows, vals, has_diag, diag, values);
    Answer::Solved(size)
}

// LUFactors::solve_dense with no permutations: the lower triangle, then the upper one. Only what is lent
// is tested, not the values between the two.
pub fn solve_dense(
    size: usize,
    lower_entries: usize,
    lower_starts: &[usize],
    lower_rows: &[usize],
    lower_vals: &[f64],
    lower_has_diag: bool,
    lower_diag: &[f64],
    upper_entries: usize,
    upper_starts: &[usize],
    upper_rows: &[usize],
    upper_vals: &[f64],
    upper_has_diag: bool,
    upper_diag: &[f64],
    values: &mut [f64],
) -> Answer
    ensures { result_of result values.new [] ≡ solve_dense
        (tri true size lower_starts.now lower_rows.now lower_vals.now
        lower_has_diag lower_diag.now) lower_entries
        (tri false size upper_starts.now upper_rows.now upper_vals.now
        upper_has_diag upper_diag.now) upper_entries values.old }
{
    if !lu_gate::triangle_ok(
        true,
        size,
        lower_entries,
        lower_starts,
        lower_rows,
        lower_vals,
        lower_has_diag,
        lower_diag,
        values.len(),
    ) {
        return Answer::BadTriangle;
    }
    if !lu_gate::triangle_ok(
        false,
        size,
        upper_entries,
        upper_starts,
        upper_rows,
        upper_vals,
        upper_has_diag,
        upper_diag,
        values.len(),
    ) {
        return Answer::BadTriangle;
    }
    if !lu_gate::numbers_ok(size, lower_entries, lower_vals, lower_has_diag, lower_diag) {
        return Answer::NotFinite;
    }
    if !lu_gate::numbers_ok(size, upper_entries, upper_vals, upper_has_diag, upper_diag) {
        return Answer::NotFinite;
    }
    if !lu_gate::all_finite(values, size) {
        return Answer::NotFinite;
    }
    lu_solve::dense(
        true,
        size,
        lower_starts,
        lower_rows,
        lower_vals,
        lower_has_diag,
        lower_diag,
        values,
    );
    lu_solve::dense(
        false,
        size,
        upper_starts,
        upper_rows,
        upper_vals,
        upper_has_diag,
        upper_diag,
        values,
    );
    Answer::Solved(size)
}
