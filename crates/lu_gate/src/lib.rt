// What a triangle solve refuses. Each test only reads, and its value is the definition's own.
#![tactic(auto)]

ghost use Rattle.std.specs.Prelude.{◌≡◌, true, not, ◌&&◌, ◌||◌, ◌<◌, ◌≤◌, length, ltb};
ghost use Rattle.doubles.specs.Num.{finite};
ghost use Rattle.doubles.specs.Limits.{max_rows};
ghost use Rattle.doubles.specs.Loop.{all};
ghost use Rattle.doubles.specs.Lists.{◌!◌};
ghost use Rattle.lu_walk.specs.Walk.{shape};
ghost use Rattle.lu_solve.specs.Solve.{tri};
ghost use Rattle.lu_gate.specs.Gate.{ok_sizes, ok_starts, beyond, ok_column, ok_rows, ok_diag, ok_triangle, finite_at, ok_numbers, ok_held, ok_list, Readable};

// 02: 96 places, "a triangle then takes 4,560 entries". Longer arrays are fine.
fn sizes_ok(
    size: usize,
    entries: usize,
    starts: usize,
    rows: usize,
    vals: usize,
    has_diag: bool,
    diag: usize,
    values: usize,
) -> bool
    ensures { result ≡ ok_sizes size entries starts rows vals has_diag diag values }
{
    (size <= doubles::MAX_ROWS)
        & (entries <= doubles::MAX_TRI_ENTRIES)
        & (size < starts)
        & (entries <= rows)
        & (entries <= vals)
        & (!has_diag | (size <= diag))
        & (size <= values)
}

// The starts begin at 0, don't fall and end at the entry count.
pub fn starts_ok(size: usize, entries: usize, starts: &[usize]) -> bool
    requires { size < length starts.now }
    ensures { result ≡ ok_starts size entries starts.now }
{
    if starts[0] != 0 {
        return false;
    }
    if starts[size] != entries {
        return false;
    }
    for j in 0..size {
        if starts[j + 1] < starts[j] {
            return false;
        }
    }
    true
}

// A row too large, or not below (lower) or above (upper) its column, is refused.
fn row_ok(lower: bool, size: usize, col: usize, row: usize) -> bool
    ensures { result ≡ ltb row size && beyond lower col row }
{
    if size <= row {
        return false;
    }
    if lower {
        return col < row;
    }
    row < col
}

fn column_ok(lower: bool, size: usize, starts: &[usize], rows: &[usize], col: usize) -> bool
    requires { (col < size) × Readable (shape lower size starts.now rows.now) }
    ensures { result ≡ ok_column (shape lower size starts.now rows.now) col }
{
    for &row in &rows[starts[col]..starts[col + 1]] {
        if !row_ok(lower, size, col, row) {
            return false;
        }
    }
    true
}

pub fn rows_ok(lower: bool, size: usize, starts: &[usize], rows: &[usize]) -> bool
    requires { Readable (shape lower size starts.now rows.now) }
    ensures { result ≡ ok_rows (shape lower size starts.now rows.now) }
{
    for col in 0..size {
        if !column_ok(lower, size, starts, rows, col) {
            return false;
        }
    }
    true
}

// A diagonal of -0.0 is one of 0; a NaN one isn't, and is refused as a number.
fn diag_ok(size: usize, has_diag: bool, diag: &[f64]) -> bool
    requires { has_diag ≡ true → size ≤ length diag.now }
    ensures { result ≡ ok_diag size has_diag diag.now }
{
    if !has_diag {
        return true;
    }
    for &d in &diag[..size] {
        if d == 0.0 {
            return false;
        }
    }
    true
}

// All that 01's 1 looks at in a triangle, and the length of the values.
pub fn triangle_ok(
    lower: bool,
    size: usize,
    entries: usize,
    starts: &[usize],
    rows: &[usize],
    vals: &[f64],
    has_diag: bool,
    diag: &[f64],
    values: usize,
) -> bool
    ensures { result ≡ ok_triangle (tri lower size starts.now rows.now vals.now
        has_diag diag.now) entries values }
{
    if !sizes_ok(
        size,
        entries,
        starts.len(),
        rows.len(),
        vals.len(),
        has_diag,
        diag.len(),
        values,
    ) {
        return false;
    }
    if !starts_ok(size, entries, starts) {
        return false;
    }
    if !rows_ok(lower, size, starts, rows) {
        return false;
    }
    diag_ok(size, has_diag, diag)
}

// 01's 2, of the first n numbers of an array.
pub fn all_finite(xs: &[f64], n: usize) -> bool
    requires { n ≤ length xs.now }
    ensures { result ≡ all n (finite_at xs.now) }
{
    for &x in &xs[..n] {
        if !doubles::is_finite(x) {
            return false;
        }
    }
    true
}

pub fn numbers_ok(size: usize, entries: usize, vals: &[f64], has_diag: bool, diag: &[f64]) -> bool
    requires { (entries ≤ length vals.now) × (has_diag ≡ true → size ≤ length diag.now) }
    ensures { result ≡ ok_numbers size entries vals.now has_diag diag.now }
{
    if !all_finite(vals, entries) {
        return false;
    }
    if !has_diag {
        return true;
    }
    all_finite(diag, size)
}

// A listed place that is too large holds no number: it is 01's 3.
fn held_ok(size: usize, values: &[f64], place: usize) -> bool
    requires { size ≤ length values.now }
    ensures { result ≡ not (ltb place size) || finite (values.now ! place) }
{
    if size <= place {
        return true;
    }
    doubles::is_finite(values[place])
}

pub fn listed_ok(size: usize, list: &[usize], listed: usize, values: &[f64]) -> bool
    requires { (size ≤ length values.now) × (listed ≤ length list.now) }
    ensures { result ≡ ok_held size list.now listed values.now }
{
    for &place in &list[..listed] {
        if !held_ok(size, values, place) {
            return false;
        }
    }
    true
}

// 01's 3: "a listed place too large or repeated".
pub fn list_ok(size: usize, list: &[usize], listed: usize) -> bool
    requires { (size ≤ max_rows) × (listed ≤ length list.now) }
    ensures { result ≡ ok_list size list.now listed }
{
    let mut marks = [false; doubles::MAX_ROWS];
    for &i in &list[..listed] {
        if size <= i {
            return false;
        }
        if marks[i] {
            return false;
        }
        marks[i] = true;
    }
    true
}
