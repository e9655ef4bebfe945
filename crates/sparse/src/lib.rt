// The scattered vector of the solver: values, marks, and a list of the touched places.
// From minilp 0.2.2, src/sparse.rs, Apache-2.0, changed: the vectors are lent arrays, and the list's
// length is a number beside it. The list has a cell for each place, so an append always fits.
#![tactic(auto)]

ghost use Rattle.std.specs.Prelude.{◌≡◌, Bool, List, ◌<◌, ◌≤◌, length};
ghost use Rattle.doubles.specs.Limits.{places};
ghost use Rattle.sparse.specs.Scattered.{pat, sv, touched, put_at, add_at, sub_at, loaded, cleared, sq_norm, take_off, dot, relisted, listed_finite, Wf, Good, Fresh, Within};

// 01: "A touched list grows at first touch". The new count is returned.
pub fn touch(
    marks: &mut [bool; doubles::PLACES],
    list: &mut [usize; doubles::PLACES],
    count: usize,
    i: usize,
) -> usize
    requires { (i < places) × Wf places (pat marks.old list.old count) }
    ensures { pat marks.new list.new result ≡ touched
        (pat marks.old list.old count) i }
{
    if marks[i] {
        return count;
    }
    marks[i] = true;
    list[count] = i;
    count + 1
}

// `*get_mut(i) = x`
pub fn put_at(
    values: &mut [f64; doubles::PLACES],
    marks: &mut [bool; doubles::PLACES],
    list: &mut [usize; doubles::PLACES],
    count: usize,
    i: usize,
    x: f64,
) -> usize
    requires { (i < places) × Good places (sv values.old marks.old list.old count) }
    ensures { sv values.new marks.new list.new result
        ≡ put_at (sv values.old marks.old list.old count) i x }
{
    let n = touch(marks, list, count, i);
    values[i] = x;
    n
}

// `*get_mut(i) += x`
pub fn add_at(
    values: &mut [f64; doubles::PLACES],
    marks: &mut [bool; doubles::PLACES],
    list: &mut [usize; doubles::PLACES],
    count: usize,
    i: usize,
    x: f64,
) -> usize
    requires { (i < places) × Good places (sv values.old marks.old list.old count) }
    ensures { sv values.new marks.new list.new result
        ≡ add_at (sv values.old marks.old list.old count) i x }
{
    let n = touch(marks, list, count, i);
    values[i] = values[i] + x;
    n
}

// `*get_mut(i) -= x`
pub fn sub_at(
    values: &mut [f64; doubles::PLACES],
    marks: &mut [bool; doubles::PLACES],
    list: &mut [usize; doubles::PLACES],
    count: usize,
    i: usize,
    x: f64,
) -> usize
    requires { (i < places) × Good places (sv values.old marks.old list.old count) }
    ensures { sv values.new marks.new list.new result
        ≡ sub_at (sv values.old marks.old list.old count) i x }
{
    let n = touch(marks, list, count, i);
    values[i] = values[i] - x;
    n
}

// x times a column taken off the vector. Every place of the column is touched, also where x is 0.0.
pub fn take_off(
    values: &mut [f64; doubles::PLACES],
    marks: &mut [bool; doubles::PLACES],
    list: &mut [usize; doubles::PLACES],
    count: usize,
    rows: &[usize],
    coeffs: &[f64],
    x: f64,
) -> usize
    requires good { Good places (sv values.old marks.old list.old count) }
    requires rows_in_bounds { (length rows.now ≤ length coeffs.now) × Within places (length rows.now) rows.now }
    ensures { sv values.new marks.new list.new result ≡ take_off x rows.now
        coeffs.now (sv values.old marks.old list.old count) }
{
    let mut n = count;
    for (k, &r) in rows.iter().enumerate() {
        n = sub_at(values, marks, list, n, r, x * coeffs[k]);
    }
    n
}

// `set`, onto the vector as it stands: the first n of xs put at the first n places of `at`, in turn.
pub fn load(
    values: &mut [f64; doubles::PLACES],
    marks: &mut [bool; doubles::PLACES],
    list: &mut [usize; doubles::PLACES],
    count: usize,
    at: &[usize],
    xs: &[f64],
    n: usize,
) -> usize
    requires good { Good places (sv values.old marks.old list.old count) }
    requires n_in_bounds { (n ≤ length at.now) × (n ≤ length xs.now) × Within places n at.now }
    ensures { sv values.new marks.new list.new result ≡ loaded at.now
        xs.now n (sv values.old marks.old list.old count) }
{
    let mut c = count;
    for (k, &i) in at[..n].iter().enumerate() {
        c = put_at(values, marks, list, c, i, xs[k]);
    }
    c
}

// The listed places are set back to 0.0 and unmarked. The count after it is 0.
pub fn clear(
    values: &mut [f64; doubles::PLACES],
    marks: &mut [bool; doubles::PLACES],
    list: &[usize; doubles::PLACES],
    count: usize,
)
    requires { Good places (sv values.old marks.old list.now count) }
    ensures { sv values.new marks.new list.now 0
        ≡ cleared (sv values.old marks.old list.now count) }
{
    for &i in &list[..count] {
        values[i] = 0.0;
        marks[i] = false;
    }
}

// 01: "Sums start at 0.0 and follow entry or listed order". It reads no marks: they may be any.
pub fn sq_norm(
    values: &[f64; doubles::PLACES],
    list: &[usize; doubles::PLACES],
    count: usize,
) -> f64
    requires { (count ≤ places) × Within places count list.now }
    ensures { (m : List Bool) → result ≡ sq_norm (sv values.now m list.now count) }
{
    let mut sum = 0.0;
    for &p in &list[..count] {
        sum = sum + values[p] * values[p];
    }
    sum
}

// Coefficient times value, summed from 0.0 in the list's order. A row's sum and an eta column's are both this.
pub fn dot(at: &[usize], xs: &[f64], v: &[f64]) -> f64
    requires { (length at.now ≤ length xs.now) × Within (length v.now) (length at.now) at.now }
    ensures { result ≡ dot at.now xs.now v.now }
{
    let mut sum = 0.0;
    for (k, &i) in at.iter().enumerate() {
        sum = sum + xs[k] * v[i];
    }
    sum
}

// A vector's listed values, in listed order, put onto a fresh vector: what the helper's row solve starts from.
pub fn relist(
    values: &mut [f64; doubles::PLACES],
    marks: &mut [bool; doubles::PLACES],
    list: &mut [usize; doubles::PLACES],
    from: &[f64; doubles::PLACES],
    from_list: &[usize; doubles::PLACES],
    from_count: usize,
) -> usize
    requires { Fresh (sv values.old marks.old list.old 0) × (from_count ≤ places) × Within places from_count
        from_list.now }
    ensures { (m : List Bool) → sv values.new marks.new list.new result
        ≡ relisted (sv from.now m from_list.now from_count) }
{
    let mut c = 0;
    for &r in &from_list[..from_count] {
        c = put_at(values, marks, list, c, r, from[r]);
    }
    c
}

// 01: "Column, row and helper entries .. must be finite": every listed value is.
pub fn listed_finite(
    values: &[f64; doubles::PLACES],
    list: &[usize; doubles::PLACES],
    count: usize,
) -> bool
    requires { (count ≤ places) × Within places count list.now }
    ensures { (m : List Bool) → result ≡ listed_finite (sv values.now m list.now count) }
{
    for &i in &list[..count] {
        if !doubles::is_finite(values[i]) {
            return false;
        }
    }
    true
}
