// The walk of columns: the children of a place are the rows of the column of its number, rows[starts[j]..starts[j + 1]]
// for the number j = at[place]. In a triangular matrix every place is its own number; while a basis is factored the
// numbers are pivot numbers, and a row that is no pivot row yet has no column.
// From minilp 0.2.2, src/lu.rs (MarkNonzero), Apache-2.0, changed: the stack of steps became a
// function that calls itself, since child numbers only rise (lower) or only fall (upper).
#![tactic(auto)]

ghost use Rattle.std.specs.Prelude.{◌≡◌, ◌<◌, ◌≤◌, ◌+◌, length, get_or};
ghost use Rattle.doubles.specs.Limits.{max_rows};
ghost use Rattle.lu_walk.specs.Walk.{shape, mapped, graph_in, state, many_in, own_numbers, walk_of, entered, reached};
ghost use Rattle.lu_walk.specs.Walk.{reached_in, Columns, MapColumns, Fits, Walkable, ListedIn, Listed};

// The filter: a number that isn't below `bound` has no column.
fn many(bound: usize, starts: &[usize], number: usize) -> usize
    requires { number < bound → (number + 1 < length starts.now) ×
        (get_or starts.now number 0 ≤ get_or starts.now (number + 1) 0) }
    ensures { result ≡ many_in bound starts.now number }
{
    if number < bound {
        return starts[number + 1] - starts[number];
    }
    0
}

// 01: "The walk finishes every child of a place before the place itself; children come in stored
// order, visited places once". A finished place is written behind the `count` places that are
// finished already; the answer is the new count. The numbers left below (lower) or above the place's own fall. A child
// that is marked isn't called for: most are, and a call costs far more than the test.
pub fn visit(
    lower: bool,
    size: usize,
    at: &[usize; doubles::MAX_ROWS],
    bound: usize,
    starts: &[usize],
    rows: &[usize],
    place: usize,
    marks: &mut [bool; doubles::MAX_ROWS],
    done: &mut [usize; doubles::MAX_ROWS],
    count: usize,
) -> usize
    requires { Walkable (mapped lower size at.now bound starts.now rows.now) place
        (state marks.old done.old count) }
    ensures { state marks.new done.new result
        ≡ walk_of (graph_in (mapped lower size at.now bound starts.now rows.now)) place
        (state marks.old done.old count) }
{
    if marks[place] {
        return count;
    }
    marks[place] = true;
    let number = at[place];
    let kids = many(bound, starts, number);
    let mut n = count;
    for k in 0..kids {
        let child = rows[starts[number] + k];
        if marks[child] {
            continue;
        }
        n = visit(lower, size, at, bound, starts, rows, child, marks, done, n);
    }
    done[n] = place;
    n + 1
}

// A listed place that doesn't pass the filter is left.
fn enter(
    lower: bool,
    size: usize,
    at: &[usize; doubles::MAX_ROWS],
    bound: usize,
    starts: &[usize],
    rows: &[usize],
    place: usize,
    marks: &mut [bool; doubles::MAX_ROWS],
    done: &mut [usize; doubles::MAX_ROWS],
    count: usize,
) -> usize
    requires { Walkable (mapped lower size at.now bound starts.now rows.now) place
        (state marks.old done.old count) }
    ensures { state marks.new done.new result
        ≡ entered (mapped lower size at.now bound starts.now rows.now) place
        (state marks.old done.old count) }
{
    if at[place] < bound {
        return visit(
            lower, size, at, bound, starts, rows, place, marks, done, count,
        );
    }
    count
}

// "From each listed row, in listed order, that is already a pivot row and not yet visited, post-order."
pub fn reach_in(
    lower: bool,
    size: usize,
    at: &[usize; doubles::MAX_ROWS],
    bound: usize,
    starts: &[usize],
    rows: &[usize],
    list: &[usize],
    listed: usize,
    marks: &mut [bool; doubles::MAX_ROWS],
    done: &mut [usize; doubles::MAX_ROWS],
) -> usize
    requires map_columns { MapColumns (mapped lower size at.now bound starts.now rows.now) }
    requires listed_in { ListedIn size list.now listed }
    requires fits { Fits (state marks.old done.old 0) }
    ensures { state marks.new done.new result
        ≡ reached_in (mapped lower size at.now bound starts.now rows.now)
        list.now listed (state marks.old done.old 0) }
{
    let mut n = 0;
    for &place in &list[..listed] {
        n = enter(lower, size, at, bound, starts, rows, place, marks, done, n);
    }
    n
}

// A triangle's row map: every place is its own number.
fn own_numbers(size: usize, at: &mut [usize; doubles::MAX_ROWS])
    requires { size ≤ max_rows }
    ensures { at.new ≡ own_numbers size at.old }
{
    for p in 0..size {
        at[p] = p;
    }
}

// 01: "columns are walked from each listed place", in listed order. Every place of a triangle passes the filter.
pub fn reach(
    lower: bool,
    size: usize,
    starts: &[usize],
    rows: &[usize],
    list: &[usize],
    listed: usize,
    marks: &mut [bool; doubles::MAX_ROWS],
    done: &mut [usize; doubles::MAX_ROWS],
) -> usize
    requires columns { Columns (shape lower size starts.now rows.now) }
    requires listed { Listed (shape lower size starts.now rows.now) list.now listed }
    requires fits { Fits (state marks.old done.old 0) }
    ensures { state marks.new done.new result
        ≡ reached (shape lower size starts.now rows.now) list.now listed
        (state marks.old done.old 0) }
{
    let mut at = [0; doubles::MAX_ROWS];
    own_numbers(size, &mut at);
    reach_in(
        lower, size, &at, size, starts, rows, list, listed, marks, done,
    )
}
