// Solves with a factor over scattered vectors: the places are mapped, the two triangles solved one after
// the other in local arrays, and the result put into the vector.
// From minilp 0.2.2, src/lu.rs (LUFactors::solve), Apache-2.0, changed.
#![tactic(auto)]

ghost use Rattle.std.specs.Prelude.{◌≡◌, true, false, not, ◌<◌};
ghost use Rattle.doubles.specs.Limits.{places};
ghost use Rattle.sparse.specs.Scattered.{sv, Good};
ghost use Rattle.lu_walk.specs.Walk.{shape};
ghost use Rattle.lu_solve.specs.Solve.{tri, out, Numbers, Distinct, sparse as sparseOf};
ghost use Rattle.lu_factor_rules.specs.Factor.{matrix};
ghost use Rattle.lu_factor_rules.specs.Solves.{second, plain, mapped, solve_in, solve_transp_in};
ghost use Rattle.lu_factor_rules.specs.Ready.{Vector};
ghost use Rattle.lu_apply.specs.Ask.{Lists, Map, Solid};

// The listed values, in listed order, at their places.
fn put_plain(
    values: &[f64; doubles::PLACES],
    list: &[usize; doubles::PLACES],
    n: usize,
    to_values: &mut [f64; doubles::PLACES],
    to_marks: &mut [bool; doubles::PLACES],
    to_list: &mut [usize; doubles::PLACES],
    count: usize,
) -> usize
    requires { Lists n list.now × Good places (sv to_values.old to_marks.old to_list.old count) }
    ensures { sv to_values.new to_marks.new to_list.new result
        ≡ plain values.now list.now n (sv to_values.old to_marks.old
        to_list.old count) }
{
    let mut c = count;
    for &i in &list[..n] {
        c = sparse::put_at(to_values, to_marks, to_list, c, i, values[i]);
    }
    c
}

// The same, at the places that a map gives them.
fn put_mapped(
    at: &[usize],
    values: &[f64; doubles::PLACES],
    list: &[usize; doubles::PLACES],
    n: usize,
    to_values: &mut [f64; doubles::PLACES],
    to_marks: &mut [bool; doubles::PLACES],
    to_list: &mut [usize; doubles::PLACES],
    count: usize,
) -> usize
    requires { Map n list.now at.now × Good places (sv to_values.old to_marks.old to_list.old count) }
    ensures { sv to_values.new to_marks.new to_list.new result
        ≡ mapped at.now values.now list.now n
        (sv to_values.old to_marks.old to_list.old count) }
{
    let mut c = count;
    for &i in &list[..n] {
        c = sparse::put_at(to_values, to_marks, to_list, c, at[i], values[i]);
    }
    c
}

// A lower triangle, then an upper one; the diagonal belongs to one of them.
fn two(
    m: usize,
    first_has_diag: bool,
    starts: &[usize],
    rows: &[usize],
    vals: &[f64],
    starts2: &[usize],
    rows2: &[usize],
    vals2: &[f64],
    diag: &[f64],
    list: &mut [usize; doubles::PLACES],
    listed: usize,
    values: &mut [f64; doubles::PLACES],
) -> usize
    requires numbers { Numbers (tri true m starts.now rows.now vals.now first_has_diag diag.now) values.old }
    requires numbers_2 { Numbers (tri false m starts2.now rows2.now vals2.now (not first_has_diag) diag.now)
        values.old }
    requires distinct { Distinct (shape true m starts.now rows.now) list.old listed }
    ensures { out values.new list.new result
        ≡ second (tri false m starts2.now rows2.now vals2.now (not first_has_diag)
        diag.now)
        (sparseOf (tri true m starts.now rows.now vals.now first_has_diag
        diag.now) list.old listed values.old) }
{
    let n = lu_solve::sparse(
        true,
        m,
        starts,
        rows,
        vals,
        first_has_diag,
        diag,
        list,
        listed,
        values,
    );
    lu_solve::sparse(
        false,
        m,
        starts2,
        rows2,
        vals2,
        !first_has_diag,
        diag,
        list,
        n,
        values,
    )
}

// The factor: places to pivot numbers, L, U. `at` is the number of each row.
pub fn solve(
    m: usize,
    at: &[usize],
    starts: &[usize],
    rows: &[usize],
    vals: &[f64],
    starts2: &[usize],
    rows2: &[usize],
    vals2: &[f64],
    diag: &[f64],
    values: &mut [f64; doubles::PLACES],
    marks: &mut [bool; doubles::PLACES],
    list: &mut [usize; doubles::PLACES],
    count: usize,
) -> usize
    requires solid { Solid m at.now (matrix starts.now rows.now vals.now)
        (matrix starts2.now rows2.now vals2.now) diag.now }
    requires vector { Vector m (sv values.old marks.old list.old count) }
    ensures { sv values.new marks.new list.new result
        ≡ solve_in m at.now (matrix starts.now rows.now vals.now)
        (matrix starts2.now rows2.now vals2.now) diag.now
        (sv values.old marks.old list.old count) }
{
    let mut v = [0.0; doubles::PLACES];
    let mut k = [false; doubles::PLACES];
    let mut l = [0; doubles::PLACES];
    let a = put_mapped(at, values, list, count, &mut v, &mut k, &mut l, 0);
    let b = two(
        m, false, starts, rows, vals, starts2, rows2, vals2, diag, &mut l, a, &mut v,
    );
    sparse::clear(values, marks, list, count);
    put_plain(&v, &l, b, values, marks, list, 0)
}

// The factor transposed: the transpose of U, that of L, pivot numbers back to rows. `at` is the pivot order.
pub fn solve_transp(
    m: usize,
    at: &[usize],
    starts: &[usize],
    rows: &[usize],
    vals: &[f64],
    starts2: &[usize],
    rows2: &[usize],
    vals2: &[f64],
    diag: &[f64],
    values: &mut [f64; doubles::PLACES],
    marks: &mut [bool; doubles::PLACES],
    list: &mut [usize; doubles::PLACES],
    count: usize,
) -> usize
    requires solid { Solid m at.now (matrix starts.now rows.now vals.now)
        (matrix starts2.now rows2.now vals2.now) diag.now }
    requires vector { Vector m (sv values.old marks.old list.old count) }
    ensures { sv values.new marks.new list.new result
        ≡ solve_transp_in m at.now (matrix starts.now rows.now vals.now)
        (matrix starts2.now rows2.now vals2.now) diag.now
        (sv values.old marks.old list.old count) }
{
    let mut v = [0.0; doubles::PLACES];
    let mut k = [false; doubles::PLACES];
    let mut l = [0; doubles::PLACES];
    let a = put_plain(values, list, count, &mut v, &mut k, &mut l, 0);
    let b = two(
        m, true, starts, rows, vals, starts2, rows2, vals2, diag, &mut l, a, &mut v,
    );
    sparse::clear(values, marks, list, count);
    put_mapped(at, &v, &l, b, values, marks, list, 0)
}
