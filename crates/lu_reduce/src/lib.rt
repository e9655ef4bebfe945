// A column of the basis solved with the columns of L that are made: the walk, the list, and L taken off.
// From minilp 0.2.2, src/lu.rs (lu_factorize), Apache-2.0, changed: lent arrays.
#![tactic(auto)]

ghost use Rattle.std.specs.Prelude.{◌≡◌, Bool, List, ◌<◌};
ghost use Rattle.doubles.specs.Limits.{max_rows, places};
ghost use Rattle.sparse.specs.Scattered.{pat, sv, Wf, Good};
ghost use Rattle.lu_walk.specs.Walk.{state};
ghost use Rattle.lu_solve.specs.Solve.{grown, Places};
ghost use Rattle.lu_factor_rules.specs.Factor.{back_one, reduced, solved};
ghost use Rattle.lu_factor_rules.specs.Ready.{Lower, Vector};

// "Newly reached rows are added to the list in finishing order."
fn grow(
    done: &[usize; doubles::MAX_ROWS],
    n: usize,
    marks: &mut [bool; doubles::PLACES],
    list: &mut [usize; doubles::PLACES],
    count: usize,
) -> usize
    requires { Wf places (pat marks.old list.old count) × Places max_rows n done.now }
    ensures { pat marks.new list.new result ≡ grown done.now n
        (pat marks.old list.old count) }
{
    let mut c = count;
    for &r in &done[..n] {
        c = sparse::touch(marks, list, c, r);
    }
    c
}

// "For each visited row that is pivot row number j: x = its value; for each entry (r, a) of L's column j in stored
// order: value of r -= x * a." A row that is no pivot row has no column.
fn reduce_row(
    m: usize,
    number: &[usize; doubles::MAX_ROWS],
    i: usize,
    starts: &[usize; doubles::MAX_ROWS + 1],
    rows: &[usize],
    vals: &[f64],
    row: usize,
    values: &mut [f64; doubles::PLACES],
    marks: &mut [bool; doubles::PLACES],
    list: &mut [usize; doubles::PLACES],
    count: usize,
) -> usize
    requires lower { Lower m number.now i starts.now rows.now vals.now × (row < m) }
    requires good { Good places (sv values.old marks.old list.old count) }
    ensures { sv values.new marks.new list.new result
        ≡ back_one number.now i starts.now rows.now vals.now row
        (sv values.old marks.old list.old count) }
{
    let j = number[row];
    if i <= j {
        return count;
    }
    let x = values[row];
    let a = starts[j];
    let e = starts[j + 1];
    sparse::take_off(values, marks, list, count, &rows[a..e], &vals[a..e], x)
}

// "In the reverse of finishing order."
fn reduce(
    m: usize,
    number: &[usize; doubles::MAX_ROWS],
    i: usize,
    starts: &[usize; doubles::MAX_ROWS + 1],
    rows: &[usize],
    vals: &[f64],
    done: &[usize; doubles::MAX_ROWS],
    n: usize,
    values: &mut [f64; doubles::PLACES],
    marks: &mut [bool; doubles::PLACES],
    list: &mut [usize; doubles::PLACES],
    count: usize,
) -> usize
    requires lower { Lower m number.now i starts.now rows.now vals.now × Places m n done.now }
    requires good { Good places (sv values.old marks.old list.old count) }
    ensures { (v : List Bool) → sv values.new marks.new list.new result
        ≡ reduced number.now i starts.now rows.now vals.now
        (state v done.now n) (sv values.old marks.old list.old count) }
{
    let mut c = count;
    for k in (0..n).rev() {
        let row = done[k];
        c = reduce_row(
            m, number, i, starts, rows, vals, row, values, marks, list, c,
        );
    }
    c
}

// The walk, the list, and L taken off: the column in the vector becomes its solution with the columns of L that are
// made.
pub fn solve_column(
    m: usize,
    number: &[usize; doubles::MAX_ROWS],
    i: usize,
    starts: &[usize; doubles::MAX_ROWS + 1],
    rows: &[usize],
    vals: &[f64],
    values: &mut [f64; doubles::PLACES],
    marks: &mut [bool; doubles::PLACES],
    list: &mut [usize; doubles::PLACES],
    count: usize,
) -> usize
    requires { Lower m number.now i starts.now rows.now vals.now × Vector m
        (sv values.old marks.old list.old count) }
    ensures { sv values.new marks.new list.new result
        ≡ solved m number.now i starts.now rows.now vals.now
        (sv values.old marks.old list.old count) }
{
    let mut visited = [false; doubles::MAX_ROWS];
    let mut done = [0; doubles::MAX_ROWS];
    let n = lu_walk::reach_in(
        true,
        m,
        number,
        i,
        starts,
        rows,
        list,
        count,
        &mut visited,
        &mut done,
    );
    let c = grow(&done, n, marks, list, count);
    reduce(
        m, number, i, starts, rows, vals, &done, n, values, marks, list, c,
    )
}
