// The matrix by columns, rows rising, in local arrays: entries counted, columns laid end to end, and
// the rows' entries placed in turn. 01 has no text for transpose: the order is that of its columns.
// Then a variable's column on a vector. From minilp 0.2.2, src/solver.rs, calc_col_coeffs, Apache-2.0, changed:
// the vector is lent, fresh at entry, and a slack has no entry of its own in the matrix.
#![tactic(auto)]

ghost use Rattle.std.specs.Prelude.{◌≡◌, [], ◌≤◌, ◌+◌, length};
ghost use Rattle.doubles.specs.Limits.{max_columns, max_entries};
ghost use Rattle.doubles.specs.Loop.{table};
ghost use Rattle.doubles.specs.Lists.{over};
ghost use Rattle.sparse.specs.Scattered.{sv, Fresh};
ghost use Rattle.rules.specs.Parts.{rowed};
ghost use Rattle.basis_columns.specs.Columns.{counted_in, counted, sum, cells, placed_in, placed, Counting, Placing, PlacingAll, Valued, Matrix, Zeros, ByColumns};
ghost use Rattle.basis_columns.specs.Loading.{column_on, ColumnLent};

// One more for the column of each entry of a row.
fn count_row(cols: &[usize], counts: &mut [usize; doubles::MAX_COLUMNS])
    requires { Counting cols.now counts.old }
    ensures { counts.new ≡ counted_in cols.now counts.old }
{
    for &c in cols {
        counts[c] += 1;
    }
}

// Where each column starts, twice: the second is moved on as entries are placed.
fn sum_up(
    n: usize,
    counts: &[usize; doubles::MAX_COLUMNS],
    starts: &mut [usize; doubles::MAX_COLUMNS + 1],
    next: &mut [usize; doubles::MAX_COLUMNS],
)
    requires n_le_max_columns { (n ≤ max_columns) × (sum counts.now n ≤ max_entries) }
    requires starts_len { (length starts.old ≡ max_columns + 1) × (length next.old ≡ max_columns) }
    ensures { (starts.new ≡ over (table (n + 1) (sum counts.now)) starts.old)
        × (next.new ≡ over (table n (sum counts.now)) next.old) }
{
    let mut at = 0;
    for j in 0..n {
        starts[j] = at;
        next[j] = at;
        at += counts[j];
    }
    starts[n] = at;
}

// Each entry of kept row r goes to its column's next cell.
fn place_row(
    r: usize,
    cols: &[usize],
    coeffs: &[f64],
    next: &mut [usize; doubles::MAX_COLUMNS],
    crows: &mut [usize; doubles::MAX_ENTRIES],
    ccoeffs: &mut [f64; doubles::MAX_ENTRIES],
)
    requires { Placing r cols.now coeffs.now (cells next.old crows.old ccoeffs.old) }
    ensures { cells next.new crows.new ccoeffs.new ≡ placed_in r cols.now
        coeffs.now (cells next.old crows.old ccoeffs.old) }
{
    for (k, &c) in cols.iter().enumerate() {
        let at = next[c];
        next[c] = at + 1;
        crows[at] = r;
        ccoeffs[at] = coeffs[k];
    }
}

// The entries of each column, over all kept rows.
fn count_all(
    starts: &[usize],
    cols: &[usize],
    kept: &[usize],
    counts: &mut [usize; doubles::MAX_COLUMNS],
)
    requires { Matrix (rowed max_columns starts.now cols.now [] kept.now) × Zeros counts.old }
    ensures { counts.new ≡ counted (rowed max_columns starts.now cols.now []
        kept.now) counts.old }
{
    for &i in kept {
        count_row(plan::row_cols(starts, cols, i), counts);
    }
}

// The entries of all kept rows, rows rising.
fn place_all(
    starts: &[usize],
    cols: &[usize],
    coeffs: &[f64],
    kept: &[usize],
    next: &mut [usize; doubles::MAX_COLUMNS],
    crows: &mut [usize; doubles::MAX_ENTRIES],
    ccoeffs: &mut [f64; doubles::MAX_ENTRIES],
)
    requires { PlacingAll (rowed 0 starts.now cols.now coeffs.now kept.now)
        (cells next.old crows.old ccoeffs.old) }
    ensures { cells next.new crows.new ccoeffs.new ≡ placed
        (rowed 0 starts.now cols.now coeffs.now kept.now)
        (cells next.old crows.old ccoeffs.old) }
{
    for (r, &i) in kept.iter().enumerate() {
        let row = plan::row_cols(starts, cols, i);
        place_row(
            r,
            row,
            plan::row_coeffs(starts, coeffs, i),
            next,
            crows,
            ccoeffs,
        );
    }
}

// The matrix by columns: those of column j stand from cstarts[j] up to, not including, cstarts[j + 1].
pub fn by_columns(
    n: usize,
    starts: &[usize],
    cols: &[usize],
    coeffs: &[f64],
    kept: &[usize],
    cstarts: &mut [usize; doubles::MAX_COLUMNS + 1],
    crows: &mut [usize; doubles::MAX_ENTRIES],
    ccoeffs: &mut [f64; doubles::MAX_ENTRIES],
)
    requires matrix { Matrix (rowed n starts.now cols.now coeffs.now kept.now) × Valued
        (rowed n starts.now cols.now coeffs.now kept.now) }
    requires cstarts_len { (length cstarts.old ≡ max_columns + 1) × (length crows.old ≡ max_entries) ×
        (length ccoeffs.old ≡ max_entries) }
    ensures { ByColumns (rowed n starts.now cols.now coeffs.now
        kept.now) cstarts.new crows.new ccoeffs.new ×
        (length cstarts.new ≡ max_columns + 1) }
{
    let mut counts = [0; doubles::MAX_COLUMNS];
    count_all(starts, cols, kept, &mut counts);
    let mut next = [0; doubles::MAX_COLUMNS];
    sum_up(n, &counts, cstarts, &mut next);
    place_all(starts, cols, coeffs, kept, &mut next, crows, ccoeffs);
}

// The column of variable v on a fresh vector: its entries in the matrix by columns, or a slack's own row with 1.0.
pub fn load_column(
    values: &mut [f64; doubles::PLACES],
    marks: &mut [bool; doubles::PLACES],
    list: &mut [usize; doubles::PLACES],
    col_starts: &[usize],
    col_rows: &[usize],
    col_coeffs: &[f64],
    n: usize,
    v: usize,
) -> usize
    requires { Fresh (sv values.old marks.old list.old 0) × ColumnLent col_starts.now col_rows.now
        col_coeffs.now n v }
    ensures { sv values.new marks.new list.new result ≡ column_on
        col_starts.now col_rows.now col_coeffs.now n v }
{
    if v < n {
        let a = col_starts[v];
        let b = col_starts[v + 1];
        return sparse::load(
            values,
            marks,
            list,
            0,
            &col_rows[a..b],
            &col_coeffs[a..b],
            b - a,
        );
    }
    sparse::put_at(values, marks, list, 0, v - n, 1.0)
}
