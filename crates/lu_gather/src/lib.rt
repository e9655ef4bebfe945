// What a solved column of the basis gives: 23, 25, or its pivot and its entries of L and U.
// From minilp 0.2.2, src/lu.rs (lu_factorize), Apache-2.0, changed: the largest value is the pivot, lent arrays.
#![tactic(auto)]

ghost use Rattle.std.specs.Prelude.{◌≡◌, ◌<◌};
ghost use Rattle.doubles.specs.Limits.{max_rows};
ghost use Rattle.lu_factor_rules.specs.Factor.{listed_finite, better as better_of, chosen, gathered_one, gathered, judged};
ghost use Rattle.lu_factor_rules.specs.Ready.{Rows, RoomFor, Roomy, Judgeable};
ghost use Rattle.lu_factor_rules.specs.Counted.{parts_of, outcome_of};

use lu_factor_rules::{Best, Counts, Factored, Pivot};

// "Every listed value must be finite."
fn listed_finite(
    values: &[f64; doubles::PLACES],
    list: &[usize; doubles::PLACES],
    count: usize,
) -> bool
    requires { Rows max_rows count list.now }
    ensures { result ≡ listed_finite values.now list.now count }
{
    for &i in &list[..count] {
        if !doubles::is_finite(values[i]) {
            return false;
        }
    }
    true
}

// "Strictly larger, so the first listed on a tie."
fn better(number: &[usize; doubles::MAX_ROWS], i: usize, r: usize, x: f64, b: Best) -> Best
    requires { r < max_rows }
    ensures { result ≡ better_of number.now i r x b }
{
    if number[r] < i {
        return b;
    }
    let s = doubles::abs(x);
    if b.most < s {
        return Best { row: r, most: s };
    }
    b
}

fn choose(
    number: &[usize; doubles::MAX_ROWS],
    i: usize,
    values: &[f64; doubles::PLACES],
    list: &[usize; doubles::PLACES],
    count: usize,
) -> Best
    requires { Rows max_rows count list.now }
    ensures { result ≡ chosen number.now i values.now list.now count }
{
    let mut b = Best { row: 0, most: 0.0 };
    for &r in &list[..count] {
        b = better(number, i, r, values[r], b);
    }
    b
}

// "Values equal to 0.0 passed over: a pivot row number j gives the entry (j, value) of U's column i; the
// new pivot gives the diagonal; any other row r gives the entry (r, value / pivot) of L's column i."
fn gather_one(
    number: &[usize; doubles::MAX_ROWS],
    i: usize,
    row: usize,
    pivot: f64,
    r: usize,
    x: f64,
    lrows: &mut [usize; doubles::MAX_TRI_ENTRIES],
    lvals: &mut [f64; doubles::MAX_TRI_ENTRIES],
    urows: &mut [usize; doubles::MAX_TRI_ENTRIES],
    uvals: &mut [f64; doubles::MAX_TRI_ENTRIES],
    c: Counts,
) -> Counts
    requires { (r < max_rows) × RoomFor number.now i row r
        (parts_of lrows.old lvals.old urows.old uvals.old c) }
    ensures { parts_of lrows.new lvals.new urows.new uvals.new result
        ≡ gathered_one number.now i row pivot r x (parts_of lrows.old lvals.old
        urows.old uvals.old c) }
{
    if x == 0.0 {
        return c;
    }
    let j = number[r];
    if j < i {
        let at = c.upper;
        urows[at] = j;
        uvals[at] = x;
        return Counts {
            lower: c.lower,
            upper: at + 1,
        };
    }
    if r == row {
        return c;
    }
    let at = c.lower;
    lrows[at] = r;
    lvals[at] = x / pivot;
    Counts {
        lower: at + 1,
        upper: c.upper,
    }
}

fn gather(
    number: &[usize; doubles::MAX_ROWS],
    i: usize,
    row: usize,
    values: &[f64; doubles::PLACES],
    list: &[usize; doubles::PLACES],
    count: usize,
    lrows: &mut [usize; doubles::MAX_TRI_ENTRIES],
    lvals: &mut [f64; doubles::MAX_TRI_ENTRIES],
    urows: &mut [usize; doubles::MAX_TRI_ENTRIES],
    uvals: &mut [f64; doubles::MAX_TRI_ENTRIES],
    from: Counts,
) -> Counts
    requires rows { Rows max_rows count list.now × (row < max_rows) }
    requires roomy { Roomy number.now i row values.now list.now count
        (parts_of lrows.old lvals.old urows.old uvals.old from) }
    ensures { parts_of lrows.new lvals.new urows.new uvals.new result
        ≡ gathered number.now i row values.now list.now count
        (parts_of lrows.old lvals.old urows.old uvals.old from) }
{
    let pivot = values[row];
    let mut c = from;
    for &r in &list[..count] {
        c = gather_one(
            number, i, row, pivot, r, values[r], lrows, lvals, urows, uvals, c,
        );
    }
    c
}

// The tests, the pivot and the entries.
pub fn judge(
    number: &[usize; doubles::MAX_ROWS],
    i: usize,
    values: &[f64; doubles::PLACES],
    list: &[usize; doubles::PLACES],
    count: usize,
    lrows: &mut [usize; doubles::MAX_TRI_ENTRIES],
    lvals: &mut [f64; doubles::MAX_TRI_ENTRIES],
    urows: &mut [usize; doubles::MAX_TRI_ENTRIES],
    uvals: &mut [f64; doubles::MAX_TRI_ENTRIES],
    from: Counts,
) -> Factored
    requires { Judgeable number.now i values.now list.now count
        (parts_of lrows.old lvals.old urows.old uvals.old from) }
    ensures { outcome_of lrows.new lvals.new urows.new uvals.new result
        ≡ judged number.now i values.now list.now count
        (parts_of lrows.old lvals.old urows.old uvals.old from) }
{
    if !listed_finite(values, list, count) {
        return Factored::NotFinite;
    }
    let b = choose(number, i, values, list, count);
    if !(doubles::EPS <= b.most) {
        return Factored::Singular;
    }
    let row = b.row;
    let value = values[row];
    let counts = gather(
        number, i, row, values, list, count, lrows, lvals, urows, uvals, from,
    );
    Factored::Added(Pivot {
        row: row,
        value: value,
        counts: counts,
    })
}
