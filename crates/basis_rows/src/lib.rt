// Rows combined at the non-basic places, and the lists that the row solve starts from and is tested by.
// From minilp 0.2.2, src/solver.rs, calc_row_coeffs, Apache-2.0, changed: the vectors are lent arrays, the row solve
// is the caller's, and a slack has no entry of its own in the plan: its 1.0 comes last. The sums go over wide arrays,
// which have cells for basic variables too: which of a row's variables are basic, and which are new, follows no pattern,
// so a branch on either would be guessed wrong again and again.
#![tactic(auto)]

ghost use Rattle.std.specs.Prelude.{◌≡◌, Bool, false, List, ◌<◌, ◌≤◌, length, get_or};
ghost use Rattle.doubles.specs.Limits.{places, vars};
ghost use Rattle.doubles.specs.Loop.{run, table};
ghost use Rattle.doubles.specs.Lists.{◌!◌, ◌#◌, over};
ghost use Rattle.sparse.specs.Scattered.{sv, Wf, Good, Within, Fresh};
ghost use Rattle.rules.specs.Parts.{rowed};
ghost use Rattle.rules.specs.Basis.{add_entry, add_turn, add_row, combine};
ghost use Rattle.basis_rows.specs.Lent.{RowLent, RowsLent};
ghost use Rattle.basis_rows.specs.Wide.{narrow, narrow_pat, touched_in, cell_in};

// A number that no wide array has a cell for is a basic variable's, and goes to the first cell that is no place.
fn cell_in(cell: usize) -> usize
    ensures { result ≡ cell_in cell }
{
    if cell < doubles::VARS {
        return cell;
    }
    doubles::PLACES
}

// A place is listed at its first touch; a cell of a basic variable never is. What is written behind the list doesn't
// count.
fn touch(
    marks: &mut [bool; doubles::VARS],
    list: &mut [usize; doubles::VARS],
    count: usize,
    n: usize,
    c: usize,
) -> usize
    requires { (c < vars) × (n ≤ places) × Wf places (narrow_pat n marks.old list.old count) ×
        (length list.old ≡ vars) }
    ensures { (narrow_pat n marks.new list.new result
        ≡ touched_in n (narrow_pat n marks.old list.old count) c) ×
        (length list.new ≡ vars) }
{
    let new = cells::bit(!marks[c] & (c < n));
    marks[c] = true;
    list[count] = c;
    count + new
}

// x for the variable v, added at its place; a basic variable has none.
fn add_entry(
    values: &mut [f64; doubles::VARS],
    marks: &mut [bool; doubles::VARS],
    list: &mut [usize; doubles::VARS],
    count: usize,
    n: usize,
    var_states: &[usize],
    v: usize,
    x: f64,
) -> usize
    requires { Good places (narrow n values.old marks.old list.old count) × (n ≤ places) ×
        (length list.old ≡ vars) × (v < length var_states.now) }
    ensures { (narrow n values.new marks.new list.new result ≡ add_entry n
        var_states.now v x (narrow n values.old marks.old list.old count)) ×
        (length list.new ≡ vars) }
{
    let c = cell_in(var_states[v]);
    let k = touch(marks, list, count, n, c);
    values[c] = values[c] + x;
    k
}

// The entries of a row, each times y, in their order.
fn add_entries(
    values: &mut [f64; doubles::VARS],
    marks: &mut [bool; doubles::VARS],
    list: &mut [usize; doubles::VARS],
    count: usize,
    n: usize,
    var_states: &[usize],
    cols: &[usize],
    coeffs: &[f64],
    y: f64,
) -> usize
    requires good { Good places (narrow n values.old marks.old list.old count) × (n ≤ places) ×
        (length list.old ≡ vars) }
    requires cols_in_bounds { (length cols.now ≤ length coeffs.now) × Within (length var_states.now) (length cols.now)
        cols.now }
    ensures { (narrow n values.new marks.new list.new result ≡ run
        (add_turn n var_states.now cols.now coeffs.now y) (length cols.now)
        (narrow n values.old marks.old list.old count)) ×
        (length list.new ≡ vars) }
{
    let mut c = count;
    for (k, &v) in cols.iter().enumerate() {
        c = add_entry(values, marks, list, c, n, var_states, v, coeffs[k] * y);
    }
    c
}

// Kept row r times y: its entries, then its slack, whose coefficient is 1.0.
fn add_row(
    values: &mut [f64; doubles::VARS],
    marks: &mut [bool; doubles::VARS],
    list: &mut [usize; doubles::VARS],
    count: usize,
    n: usize,
    var_states: &[usize],
    starts: &[usize],
    cols: &[usize],
    coeffs: &[f64],
    kept: &[usize],
    r: usize,
    y: f64,
) -> usize
    requires good { Good places (narrow n values.old marks.old list.old count) × (n ≤ places) ×
        (length list.old ≡ vars) }
    requires row_lent { RowLent (rowed n starts.now cols.now coeffs.now kept.now) (length var_states.now) r }
    ensures { (narrow n values.new marks.new list.new result ≡ add_row
        (rowed n starts.now cols.now coeffs.now kept.now)
        var_states.now r y (narrow n values.old marks.old list.old count)) ×
        (length list.new ≡ vars) }
{
    let i = kept[r];
    let row_cols = plan::row_cols(starts, cols, i);
    let row_coeffs = plan::row_coeffs(starts, coeffs, i);
    let c = add_entries(
        values, marks, list, count, n, var_states, row_cols, row_coeffs, y,
    );
    add_entry(values, marks, list, c, n, var_states, n + r, 1.0 * y)
}

// The rows that a vector lists, each times its value there, in listed order, onto fresh wide arrays.
fn combine_wide(
    values: &mut [f64; doubles::VARS],
    marks: &mut [bool; doubles::VARS],
    list: &mut [usize; doubles::VARS],
    from: &[f64; doubles::PLACES],
    from_list: &[usize; doubles::PLACES],
    from_count: usize,
    n: usize,
    var_states: &[usize],
    starts: &[usize],
    cols: &[usize],
    coeffs: &[f64],
    kept: &[usize],
) -> usize
    requires fresh { Fresh (narrow n values.old marks.old list.old 0) × (length list.old ≡ vars) ×
        (length kept.now ≤ places) × (from_count ≤ places) × Within (length kept.now) from_count
        from_list.now }
    requires rows_lent { RowsLent (rowed n starts.now cols.now coeffs.now kept.now) (length var_states.now) }
    ensures { ((m : List Bool) → narrow n values.new marks.new list.new result ≡ combine
        (rowed n starts.now cols.now coeffs.now kept.now)
        var_states.now (sv from.now m from_list.now from_count)) ×
        (length list.new ≡ vars) }
{
    let mut c = 0;
    for &r in &from_list[..from_count] {
        c = add_row(
            values, marks, list, c, n, var_states, starts, cols, coeffs, kept, r, from[r],
        );
    }
    c
}

// The first n cells of wide arrays over the front of a vector's own.
fn copy_front(
    n: usize,
    from: &[f64; doubles::VARS],
    from_marks: &[bool; doubles::VARS],
    values: &mut [f64; doubles::PLACES],
    marks: &mut [bool; doubles::PLACES],
)
    requires { (n ≤ places) × (length values.old ≡ places) × (length marks.old ≡ places) }
    ensures { (values.new ≡ over (table n (λ j. from.now ! j)) values.old) ×
        (marks.new ≡ over (table n (λ j. get_or from_marks.now j false)) marks.old) }
{
    values[..n].copy_from_slice(&from[..n]);
    marks[..n].copy_from_slice(&from_marks[..n]);
}

// And the list.
fn copy_list(count: usize, from: &[usize; doubles::VARS], list: &mut [usize; doubles::PLACES])
    requires { (count ≤ places) × (length list.old ≡ places) }
    ensures { list.new ≡ over (table count (λ j. from.now # j)) list.old }
{
    list[..count].copy_from_slice(&from[..count]);
}

// The rows that a vector lists, each times its value there, in listed order, onto a fresh vector.
pub fn combine(
    values: &mut [f64; doubles::PLACES],
    marks: &mut [bool; doubles::PLACES],
    list: &mut [usize; doubles::PLACES],
    from: &[f64; doubles::PLACES],
    from_list: &[usize; doubles::PLACES],
    from_count: usize,
    n: usize,
    var_states: &[usize],
    starts: &[usize],
    cols: &[usize],
    coeffs: &[f64],
    kept: &[usize],
) -> usize
    requires fresh { Fresh (sv values.old marks.old list.old 0) × (length kept.now ≤ places) ×
        (from_count ≤ places) × Within (length kept.now) from_count from_list.now }
    requires rows_lent { RowsLent (rowed n starts.now cols.now coeffs.now kept.now) (length var_states.now) }
    ensures { (m : List Bool) → sv values.new marks.new list.new result ≡ combine
        (rowed n starts.now cols.now coeffs.now kept.now)
        var_states.now (sv from.now m from_list.now from_count) }
{
    let mut wide = [0.0; doubles::VARS];
    let mut wide_marks = [false; doubles::VARS];
    let mut wide_list = [0usize; doubles::VARS];
    let c = combine_wide(
        &mut wide,
        &mut wide_marks,
        &mut wide_list,
        from,
        from_list,
        from_count,
        n,
        var_states,
        starts,
        cols,
        coeffs,
        kept,
    );
    copy_front(n, &wide, &wide_marks, values, marks);
    copy_list(c, &wide_list, list);
    c
}
