// Solves of a triangle that is stored by columns, sparse and dense, where all is in order.
// From minilp 0.2.2, src/lu.rs, Apache-2.0, changed: the matrix is lent slices, and the scattered
// vector a lent list of places beside the values.
#![tactic(auto)]

ghost use Rattle.std.specs.Prelude.{◌≡◌, true, false, ◌<◌, ◌≤◌, length, replicate};
ghost use Rattle.doubles.specs.Limits.{max_rows};
ghost use Rattle.doubles.specs.Loop.{run, down};
ghost use Rattle.doubles.specs.Lists.{◌!◌};
ghost use Rattle.sparse.specs.Scattered.{pat, touched, Within};
ghost use Rattle.lu_walk.specs.Walk.{shape};
ghost use Rattle.lu_solve.specs.Solve.{tri, divided_by, process_col, given, zeroed, processed, held_by, grown, out, sparse as sparseOf, dense as denseOf, Numbers, Places, Touchable, Growable, Distinct};

// What tri_solve_process_col leaves at the column's own place. Without a diagonal it is all ones.
fn own(values: &[f64], has_diag: bool, diag: &[f64], col: usize) -> f64
    requires { (col < length values.now) × (has_diag ≡ true → col < length diag.now) }
    ensures { result ≡ divided_by has_diag (values.now ! col) (diag.now ! col) }
{
    if has_diag {
        return values[col] / diag[col];
    }
    values[col]
}

// tri_solve_process_col: all other variables of the column's row are taken off already. An entry is
// taken off where the number is 0.0 too: 0.0 times an infinite or negative number isn't nothing.
fn process_col(
    lower: bool,
    size: usize,
    starts: &[usize],
    rows: &[usize],
    vals: &[f64],
    has_diag: bool,
    diag: &[f64],
    col: usize,
    values: &mut [f64],
)
    requires { (col < size) × Numbers (tri lower size starts.now rows.now vals.now has_diag diag.now)
        values.old }
    ensures { values.new ≡ process_col
        (tri lower size starts.now rows.now vals.now has_diag diag.now)
        col values.old }
{
    let x = own(values, has_diag, diag, col);
    values[col] = x;
    for k in starts[col]..starts[col + 1] {
        let r = rows[k];
        let off = x * vals[k];
        values[r] = values[r] - off;
    }
}

// tri_solve_dense: a lower triangle's columns rising, an upper one's falling.
pub fn dense(
    lower: bool,
    size: usize,
    starts: &[usize],
    rows: &[usize],
    vals: &[f64],
    has_diag: bool,
    diag: &[f64],
    values: &mut [f64],
)
    requires { Numbers (tri lower size starts.now rows.now vals.now has_diag diag.now) values.old }
    ensures { values.new ≡ denseOf (tri lower size starts.now rows.now
        vals.now has_diag diag.now) values.old }
{
    if lower {
        dense_lower(size, starts, rows, vals, has_diag, diag, values);
    } else {
        dense_upper(size, starts, rows, vals, has_diag, diag, values);
    }
}

fn dense_lower(
    size: usize,
    starts: &[usize],
    rows: &[usize],
    vals: &[f64],
    has_diag: bool,
    diag: &[f64],
    values: &mut [f64],
)
    requires { Numbers (tri true size starts.now rows.now vals.now has_diag diag.now) values.old }
    ensures { values.new ≡ run (process_col
        (tri true size starts.now rows.now vals.now has_diag diag.now))
        size values.old }
{
    for col in 0..size {
        process_col(true, size, starts, rows, vals, has_diag, diag, col, values);
    }
}

fn dense_upper(
    size: usize,
    starts: &[usize],
    rows: &[usize],
    vals: &[f64],
    has_diag: bool,
    diag: &[f64],
    values: &mut [f64],
)
    requires { Numbers (tri false size starts.now rows.now vals.now has_diag diag.now) values.old }
    ensures { values.new ≡ down (process_col
        (tri false size starts.now rows.now vals.now has_diag diag.now))
        size values.old }
{
    for col in (0..size).rev() {
        process_col(false, size, starts, rows, vals, has_diag, diag, col, values);
    }
}

// The marks of the given list.
fn mark_listed(list: &[usize], listed: usize, marks: &mut [bool; doubles::MAX_ROWS])
    requires listed_in_bounds { (listed ≤ length list.now) × Within max_rows listed list.now }
    requires marks_value { marks.old ≡ replicate max_rows false }
    ensures { marks.new ≡ given list.now listed }
{
    for &i in &list[..listed] {
        marks[i] = true;
    }
}

// 01: "Unlisted places count as 0.0".
fn held(marked: bool, x: f64) -> f64
    ensures { result ≡ held_by marked x }
{
    if marked {
        return x;
    }
    0.0
}

fn zero_rest(marks: &[bool; doubles::MAX_ROWS], size: usize, values: &mut [f64])
    requires { (size ≤ max_rows) × (size ≤ length values.old) }
    ensures { values.new ≡ zeroed marks.now size values.old }
{
    for (i, x) in values[..size].iter_mut().enumerate() {
        *x = held(marks[i], *x);
    }
}

// 01: "Processing is the reverse of finishing order (ours)".
fn process_all(
    lower: bool,
    size: usize,
    starts: &[usize],
    rows: &[usize],
    vals: &[f64],
    has_diag: bool,
    diag: &[f64],
    done: &[usize; doubles::MAX_ROWS],
    count: usize,
    values: &mut [f64],
)
    requires numbers { Numbers (tri lower size starts.now rows.now vals.now has_diag diag.now) values.old }
    requires places { Places size count done.now }
    ensures { values.new ≡ processed
        (tri lower size starts.now rows.now vals.now has_diag diag.now)
        done.now count values.old }
{
    for k in (0..count).rev() {
        let col = done[k];
        process_col(lower, size, starts, rows, vals, has_diag, diag, col, values);
    }
}

// A first touch appends the place to the lent list.
fn touch(marks: &mut [bool; doubles::MAX_ROWS], list: &mut [usize], count: usize, i: usize) -> usize
    requires { Touchable (pat marks.old list.old count) i }
    ensures { pat marks.new list.new result ≡ touched
        (pat marks.old list.old count) i }
{
    if marks[i] {
        return count;
    }
    marks[i] = true;
    list[count] = i;
    count + 1
}

// The list afterwards: the given one, then the newly visited places in finishing order.
fn grow(
    done: &[usize; doubles::MAX_ROWS],
    count: usize,
    marks: &mut [bool; doubles::MAX_ROWS],
    list: &mut [usize],
    listed: usize,
) -> usize
    requires { Growable done.now count (pat marks.old list.old listed) }
    ensures { pat marks.new list.new result
        ≡ grown done.now count (pat marks.old list.old listed) }
{
    let mut n = listed;
    for &i in &done[..count] {
        n = touch(marks, list, n, i);
    }
    n
}

// tri_solve_sparse: the walk from each listed place, then the columns in the reverse of finishing
// order. The answer is the number of listed places afterwards.
pub fn sparse(
    lower: bool,
    size: usize,
    starts: &[usize],
    rows: &[usize],
    vals: &[f64],
    has_diag: bool,
    diag: &[f64],
    list: &mut [usize],
    listed: usize,
    values: &mut [f64],
) -> usize
    requires numbers { Numbers (tri lower size starts.now rows.now vals.now has_diag diag.now) values.old }
    requires distinct { Distinct (shape lower size starts.now rows.now) list.old listed }
    ensures { out values.new list.new result ≡ sparseOf
        (tri lower size starts.now rows.now vals.now has_diag diag.now)
        list.old listed values.old }
{
    let mut visited = [false; doubles::MAX_ROWS];
    let mut done = [0; doubles::MAX_ROWS];
    let count = lu_walk::reach(
        lower,
        size,
        starts,
        rows,
        list,
        listed,
        &mut visited,
        &mut done,
    );
    let mut marks = [false; doubles::MAX_ROWS];
    mark_listed(list, listed, &mut marks);
    zero_rest(&marks, size, values);
    process_all(
        lower, size, starts, rows, vals, has_diag, diag, &done, count, values,
    );
    grow(&done, count, &mut marks, list, listed)
}
