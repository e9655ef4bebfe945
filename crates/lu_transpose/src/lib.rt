// The transpose of a matrix by columns, in time proportional to its entries: the entries of each row are counted, the
// counts summed up, and each entry put before those of its row that were put already.
// From minilp 0.2.2, src/sparse.rs (SparseMat::transpose), Apache-2.0, changed: lent arrays.
#![tactic(auto)]

ghost use Rattle.std.specs.Prelude.{◌≡◌, ◌<◌, ◌+◌};
ghost use Rattle.lu_factor_rules.specs.Factor.{matrix};
ghost use Rattle.lu_factor_rules.specs.Transpose.{counted, summed, placed_one, placed_column, placed, empty};
ghost use Rattle.lu_factor_rules.specs.Transpose.{transpose as transposeOf};
ghost use Rattle.lu_transpose.specs.Read.{ColumnRead, Read, Countable, Summable, Room, ColumnRoom, Roomy};

// "calculate row counts and store them in the indptr array"
fn count_rows(rows: &[usize], n: usize, counts: &mut [usize; doubles::MAX_ROWS + 1])
    requires { Countable n rows.now × (counts.old ≡ empty.starts) }
    ensures { counts.new ≡ counted rows.now n counts.old }
{
    for &r in &rows[..n] {
        counts[r] += 1;
    }
}

// "calculate cumulative counts so that indptr elements point to the *ends* of each resulting row."
fn sum_up(m: usize, counts: &mut [usize; doubles::MAX_ROWS + 1])
    requires { Summable m counts.old }
    ensures { counts.new ≡ summed m counts.old }
{
    for r in 0..m {
        counts[r + 1] += counts[r];
    }
}

// An entry of column c in row r.
fn place_one(
    c: usize,
    r: usize,
    x: f64,
    tstarts: &mut [usize; doubles::MAX_ROWS + 1],
    trows: &mut [usize; doubles::MAX_TRI_ENTRIES],
    tvals: &mut [f64; doubles::MAX_TRI_ENTRIES],
)
    requires { Room r (matrix tstarts.old trows.old tvals.old) }
    ensures { matrix tstarts.new trows.new tvals.new
        ≡ placed_one c r x (matrix tstarts.old trows.old tvals.old) }
{
    let p = tstarts[r] - 1;
    tstarts[r] = p;
    trows[p] = c;
    tvals[p] = x;
}

// The entries of column c, in their order.
fn place_column(
    starts: &[usize],
    rows: &[usize],
    vals: &[f64],
    c: usize,
    tstarts: &mut [usize; doubles::MAX_ROWS + 1],
    trows: &mut [usize; doubles::MAX_TRI_ENTRIES],
    tvals: &mut [f64; doubles::MAX_TRI_ENTRIES],
)
    requires column_read { ColumnRead (matrix starts.now rows.now vals.now) c }
    requires column_room { ColumnRoom (matrix starts.now rows.now vals.now) c (matrix tstarts.old trows.old tvals.old) }
    ensures { matrix tstarts.new trows.new tvals.new
        ≡ placed_column (matrix starts.now rows.now vals.now) c
        (matrix tstarts.old trows.old tvals.old) }
{
    let (a, e) = (starts[c], starts[c + 1]);
    for (&r, &x) in rows[a..e].iter().zip(&vals[a..e]) {
        place_one(c, r, x, tstarts, trows, tvals);
    }
}

// "place the elements": the columns in turn.
fn place(
    m: usize,
    starts: &[usize],
    rows: &[usize],
    vals: &[f64],
    tstarts: &mut [usize; doubles::MAX_ROWS + 1],
    trows: &mut [usize; doubles::MAX_TRI_ENTRIES],
    tvals: &mut [f64; doubles::MAX_TRI_ENTRIES],
)
    requires read { Read m (matrix starts.now rows.now vals.now) }
    requires roomy { Roomy m (matrix starts.now rows.now vals.now) (matrix tstarts.old trows.old tvals.old) }
    ensures { matrix tstarts.new trows.new tvals.new
        ≡ placed m (matrix starts.now rows.now vals.now)
        (matrix tstarts.old trows.old tvals.old) }
{
    for c in 0..m {
        place_column(starts, rows, vals, c, tstarts, trows, tvals);
    }
}

// The transpose, into fresh arrays.
pub fn transpose(
    m: usize,
    starts: &[usize],
    rows: &[usize],
    vals: &[f64],
    tstarts: &mut [usize; doubles::MAX_ROWS + 1],
    trows: &mut [usize; doubles::MAX_TRI_ENTRIES],
    tvals: &mut [f64; doubles::MAX_TRI_ENTRIES],
)
    requires read { Read m (matrix starts.now rows.now vals.now) }
    requires tvals_value { matrix tstarts.old trows.old tvals.old ≡ empty }
    ensures { matrix tstarts.new trows.new tvals.new
        ≡ transposeOf m (matrix starts.now rows.now vals.now) }
{
    let n = starts[m];
    count_rows(rows, n, tstarts);
    sum_up(m, tstarts);
    place(m, starts, rows, vals, tstarts, trows, tvals);
}
