// 01, "When the gateway says no": refusals 1 to 5, which read the plan alone, and the rows that are kept. 2 is asked of
// `plan_numbers`.
// From minilp 0.2.2, src/solver.rs, try_new, Apache-2.0, changed: 01's refusals, and the first place of each.
#![tactic(auto)]

ghost use Rattle.std.specs.Prelude.{◌≡◌, true, [], ◌<◌, ◌≤◌, ◌+◌, length, leb};
ghost use Rattle.doubles.specs.Num.{f0};
ghost use Rattle.doubles.specs.Loop.{all};
ghost use Rattle.doubles.specs.Lists.{◌#◌};
ghost use Rattle.rules.specs.Parts.{plan_of};
ghost use Rattle.rules.specs.Plan.{row_cols, row_coeffs, kept_rows};
ghost use Rattle.rules.specs.Refusals.{sizes_fit, plan_long, starts_rise, bad_at, first_crossed, zero_holds, false_row, first_false};
ghost use Rattle.plan.specs.Lent.{rows_of, bounds_of, empties_of, RowIn, Rows, Front};
ghost use Rattle.plan.specs.Refused.{bad_entry, refusal_of};

// The first entry, row by row, whose column number is too large or doesn't rise.
#[derive(Clone, Copy)]
pub enum Bad {
    Entry { row: usize, place: usize },
    Nothing,
}

// 1: "a size or the budget passes its limit"
pub fn sizes_fit(columns: usize, rows: usize, entries: usize, budget: usize) -> bool
    ensures { result ≡ sizes_fit (plan_of columns rows entries budget f0 [] [] [] [] [] [] [] []) }
{
    (columns <= doubles::MAX_COLUMNS)
        & (rows <= doubles::MAX_ROWS)
        & (entries <= doubles::MAX_ENTRIES)
        & (budget <= doubles::MAX_BUDGET)
}

// "a lent array is too short": those of the plan
pub fn plan_long(
    columns: usize,
    rows: usize,
    entries: usize,
    costs: &[f64],
    lowers: &[f64],
    uppers: &[f64],
    starts: &[usize],
    cols: &[usize],
    coeffs: &[f64],
    ops: &[u8],
    rhs: &[f64],
) -> bool
    ensures { result ≡ plan_long (plan_of columns rows entries 0 f0 costs.now lowers.now
        uppers.now starts.now cols.now coeffs.now ops.now
        rhs.now) }
{
    (columns <= costs.len())
        & (columns <= lowers.len())
        & (columns <= uppers.len())
        & (rows < starts.len())
        & (entries <= cols.len())
        & (entries <= coeffs.len())
        & (rows <= ops.len())
        & (rows <= rhs.len())
}

// "the row starts don't begin at 0, fall, or don't end at the entry count"
pub fn starts_rise(rows: usize, entries: usize, starts: &[usize]) -> bool
    requires { rows < length starts.now }
    ensures { result ≡ starts_rise (plan_of 0 rows entries 0 f0 [] [] [] starts.now [] [] [] []) }
{
    (starts[0] == 0) & none_falls(rows, starts) & (starts[rows] == entries)
}

fn none_falls(rows: usize, starts: &[usize]) -> bool
    requires { rows < length starts.now }
    ensures { result ≡ all rows (λ i. leb (starts.now # i) (starts.now # (i + 1))) }
{
    for i in 0..rows {
        if starts[i + 1] < starts[i] {
            return false;
        }
    }
    true
}

// 01: "A row is handed out as that part of the lent entries".
pub fn row_cols<'a>(starts: &[usize], cols: &'a [usize], i: usize) -> &'a [usize]
    requires { RowIn starts.now (length cols.now) i }
    ensures { result.now ≡ row_cols (rows_of 0 0 starts.now cols.now) i }
{
    let start = starts[i];
    let end = starts[i + 1];
    &cols[start..end]
}

pub fn row_coeffs<'a>(starts: &[usize], coeffs: &'a [f64], i: usize) -> &'a [f64]
    requires { RowIn starts.now (length coeffs.now) i }
    ensures { result.now ≡ row_coeffs (plan_of 0 0 0 0 f0 [] [] [] starts.now [] coeffs.now [] [])
        i }
{
    let start = starts[i];
    let end = starts[i + 1];
    &coeffs[start..end]
}

// 3: "a column number is too large or doesn't rise", at place k of a row
fn bad_at(columns: usize, cols: &[usize], k: usize) -> bool
    requires { k < length cols.now }
    ensures { result ≡ bad_at columns cols.now k }
{
    let col = cols[k];
    if columns <= col {
        return true;
    }
    if 0 < k {
        return col <= cols[k - 1];
    }
    false
}

// 01: "the first bad entry, row by row, is the one named, by row and place".
pub fn first_bad(columns: usize, rows: usize, starts: &[usize], cols: &[usize]) -> Bad
    requires { Rows rows starts.now (length cols.now) }
    ensures { result ≡ bad_entry (rows_of columns rows starts.now cols.now) }
{
    'found: {
        for row in 0..rows {
            let part = row_cols(starts, cols, row);
            for place in 0..part.len() {
                if bad_at(columns, part, place) {
                    break 'found Bad::Entry { row, place };
                }
            }
        }
        Bad::Nothing
    }
}

// 4: "lower > upper, with the first such column"
pub fn first_crossed(columns: usize, lowers: &[f64], uppers: &[f64]) -> usize
    requires { (columns ≤ length lowers.now) × (columns ≤ length uppers.now) }
    ensures { result ≡ first_crossed (bounds_of columns lowers.now uppers.now) }
{
    for j in 0..columns {
        if uppers[j] < lowers[j] {
            return j;
        }
    }
    columns
}

// 5: whether 0 op rhs is true
fn zero_holds(op: u8, rhs: f64) -> bool
    ensures { result ≡ zero_holds op rhs }
{
    match op {
        0 => 0.0 <= rhs,
        1 => 0.0 == rhs,
        _ => rhs <= 0.0,
    }
}

fn false_row(starts: &[usize], ops: &[u8], rhs: &[f64], i: usize) -> bool
    requires { (i + 1 < length starts.now) × (i < length ops.now) × (i < length rhs.now) }
    ensures { result ≡ false_row (empties_of 0 starts.now ops.now rhs.now) i }
{
    (starts[i] == starts[i + 1]) & !zero_holds(ops[i], rhs[i])
}

// 5: "an empty row whose 0 op rhs is false, with the first such row"
pub fn first_false(rows: usize, starts: &[usize], ops: &[u8], rhs: &[f64]) -> usize
    requires { (rows < length starts.now) × (rows ≤ length ops.now) × (rows ≤ length rhs.now) }
    ensures { result ≡ first_false (empties_of rows starts.now ops.now rhs.now) }
{
    for i in 0..rows {
        if false_row(starts, ops, rhs, i) {
            return i;
        }
    }
    rows
}

// 1 to 5 where the sizes and lengths have passed: "The lowest number that applies is given".
pub fn first_refusal(
    columns: usize,
    rows: usize,
    entries: usize,
    tolerance: f64,
    costs: &[f64],
    lowers: &[f64],
    uppers: &[f64],
    starts: &[usize],
    cols: &[usize],
    coeffs: &[f64],
    ops: &[u8],
    rhs: &[f64],
) -> Option<rules::Answer>
    requires { plan_long (plan_of columns rows entries 0 tolerance costs.now lowers.now uppers.now
        starts.now cols.now coeffs.now ops.now rhs.now) ≡ true }
    ensures { result ≡ refusal_of (plan_of columns rows entries 0 tolerance costs.now lowers.now
        uppers.now starts.now cols.now coeffs.now ops.now
        rhs.now) }
{
    if !starts_rise(rows, entries, starts) {
        return Some(rules::Answer::BadSize);
    }
    if !plan_numbers::passes_2(
        columns, rows, entries, tolerance, costs, lowers, uppers, coeffs, ops, rhs,
    ) {
        return Some(rules::Answer::BadNumber);
    }
    if let Bad::Entry { row, place } = first_bad(columns, rows, starts, cols) {
        return Some(rules::Answer::BadEntry { row, place });
    }
    let column = first_crossed(columns, lowers, uppers);
    if column != columns {
        return Some(rules::Answer::CrossedBounds { column });
    }
    let row = first_false(rows, starts, ops, rhs);
    if row != rows {
        return Some(rules::Answer::FalseEmptyRow { row });
    }
    None
}

// 01: "Empty true rows are dropped". The numbers of the others are written over the front of `kept`.
pub fn keep_rows(rows: usize, starts: &[usize], kept: &mut [usize]) -> usize
    requires { (rows < length starts.now) × (rows ≤ length kept.old) }
    ensures { Front (kept_rows (rows_of 0 rows starts.now [])) kept.old result kept.new }
{
    let mut m = 0;
    for i in 0..rows {
        if starts[i] != starts[i + 1] {
            kept[m] = i;
            m += 1;
        }
    }
    m
}
