// The audit sheet's tests: what refusals 11 to 14 look at. Each reads only.
#![tactic(auto)]

ghost use Rattle.std.specs.Prelude.{◌≡◌, [], ◌≤◌, length};
ghost use Rattle.std.specs.Int.Signed.{mag};
ghost use Rattle.doubles.specs.Limits.{max_columns};
ghost use Rattle.sheet_rules.specs.Sheet.{plan_of, kept_of, sheet_of};
ghost use Rattle.sheet_rules.specs.Opening.{all_within, bound_fine, bounds_fine, ops_fine, arrays_fine, numbers_fine, crosses, uncrossed, sizes_fine};
ghost use Rattle.sheet_rules.specs.Verdict.{count_fine, counts_fine, kept_fine};
ghost use Rattle.sheet_tests.specs.Joined.{joined};
ghost use Rattle.sheet_tests.specs.Sized.{PlanSized, KeptSized, bare};

use sheet_terms::size;

// How far a number is from 0, one less below 0.
fn depth(z: i64) -> u64
    ensures { result ≡ mag z }
{
    if z < 0 {
        let k = 0 - (z + 1);
        return k as u64;
    }
    z as u64
}

// The depths of the first n numbers, or-ed together: at least as large as each.
fn joined(n: usize, xs: &[i64]) -> u64
    requires { n ≤ length xs.now }
    ensures { result ≡ joined n xs.now }
{
    let mut bits: u64 = 0;
    for &x in &xs[..n] {
        bits |= depth(x);
    }
    bits
}

// Whether the first n numbers are within a limit, asked one by one.
fn each_within(limit: u64, n: usize, xs: &[i64]) -> bool
    requires { n ≤ length xs.now }
    ensures { result ≡ all_within limit n xs.now }
{
    for &x in &xs[..n] {
        if size(x) > limit {
            return false;
        }
    }
    true
}

// Whether the first n numbers are within a limit. Most often their joined sizes are, which takes no test per number.
pub fn all_within(limit: u64, n: usize, xs: &[i64]) -> bool
    requires { n ≤ length xs.now }
    ensures { result ≡ all_within limit n xs.now }
{
    if joined(n, xs) < limit {
        return true;
    }
    each_within(limit, n, xs)
}

// Whether a bound's mark is known and its number within the mark's limit.
pub fn bound_fine(mark: u8, z: i64) -> bool
    ensures { result ≡ bound_fine mark z }
{
    match mark {
        0 => size(z) <= 0,
        1 => size(z) <= doubles::MAX_BOUND,
        _ => false,
    }
}

// The same of the first n bounds.
pub fn bounds_fine(n: usize, marks: &[u8], xs: &[i64]) -> bool
    requires { (n ≤ length marks.now) × (n ≤ length xs.now) }
    ensures { result ≡ bounds_fine n marks.now xs.now }
{
    for i in 0..n {
        if !bound_fine(marks[i], xs[i]) {
            return false;
        }
    }
    true
}

// Whether the first n comparisons are known.
pub fn ops_fine(n: usize, ops: &[u8]) -> bool
    requires { n ≤ length ops.now }
    ensures { result ≡ ops_fine n ops.now }
{
    for &op in &ops[..n] {
        if op > 2 {
            return false;
        }
    }
    true
}

// Whether a count is at most n and not negative.
pub fn count_fine(n: usize, z: i64) -> bool
    requires { n ≤ max_columns }
    ensures { result ≡ count_fine n z }
{
    (0 <= z) & (z <= n as i64)
}

// 11: whether the sizes are within their limits and no lent array is too short.
pub fn sizes_fine(
    rows: usize,
    columns: usize,
    coefs: &[i64],
    costs: &[i64],
    lowers: &[i64],
    uppers: &[i64],
    lower_marks: &[u8],
    upper_marks: &[u8],
    rhs: &[i64],
    ops: &[u8],
    amounts: &[i64],
    mults: &[i64],
    r: &[i64],
    d: &[i64],
    c: &[i64],
    b: &[i64],
    counts: &[i64],
) -> bool
    ensures { result ≡ sizes_fine (sheet_of (plan_of rows columns coefs.now costs.now
        lowers.now uppers.now lower_marks.now upper_marks.now
        rhs.now ops.now amounts.now mults.now)
        (kept_of r.now d.now c.now b.now counts.now)) }
{
    if (rows <= doubles::MAX_ROWS) & (columns <= doubles::MAX_COLUMNS) {
        let cells = rows * columns;
        return (cells <= coefs.len())
            & (columns <= costs.len())
            & (columns <= lowers.len())
            & (columns <= uppers.len())
            & (columns <= lower_marks.len())
            & (columns <= upper_marks.len())
            & (rows <= rhs.len())
            & (rows <= ops.len())
            & (columns <= amounts.len())
            & (rows <= mults.len())
            & (rows <= r.len())
            & (columns <= d.len())
            & (1 <= c.len())
            & (1 <= b.len())
            & (4 <= counts.len());
    }
    false
}

// Whether every number and mark but the coefficients is within its limit.
pub fn arrays_fine(
    rows: usize,
    columns: usize,
    coefs: &[i64],
    costs: &[i64],
    lowers: &[i64],
    uppers: &[i64],
    lower_marks: &[u8],
    upper_marks: &[u8],
    rhs: &[i64],
    ops: &[u8],
    amounts: &[i64],
    mults: &[i64],
) -> bool
    requires { PlanSized (plan_of rows columns coefs.now costs.now lowers.now uppers.now lower_marks.now
        upper_marks.now rhs.now ops.now amounts.now mults.now) }
    ensures { result ≡ arrays_fine (plan_of rows columns coefs.now costs.now lowers.now
        uppers.now lower_marks.now upper_marks.now rhs.now
        ops.now amounts.now mults.now) }
{
    all_within(doubles::MAX_COST, columns, costs)
        & bounds_fine(columns, lower_marks, lowers)
        & bounds_fine(columns, upper_marks, uppers)
        & all_within(doubles::MAX_RIGHT_SIDE, rows, rhs)
        & ops_fine(rows, ops)
        & all_within(doubles::MAX_AMOUNT, columns, amounts)
        & all_within(doubles::MAX_MULTIPLIER, rows, mults)
}

// 12, at opening.
pub fn numbers_fine(
    rows: usize,
    columns: usize,
    coefs: &[i64],
    costs: &[i64],
    lowers: &[i64],
    uppers: &[i64],
    lower_marks: &[u8],
    upper_marks: &[u8],
    rhs: &[i64],
    ops: &[u8],
    amounts: &[i64],
    mults: &[i64],
) -> bool
    requires { PlanSized (plan_of rows columns coefs.now costs.now lowers.now uppers.now lower_marks.now
        upper_marks.now rhs.now ops.now amounts.now mults.now) }
    ensures { result ≡ numbers_fine (plan_of rows columns coefs.now costs.now
        lowers.now uppers.now lower_marks.now upper_marks.now
        rhs.now ops.now amounts.now mults.now) }
{
    all_within(doubles::MAX_COEFFICIENT, rows * columns, coefs)
        & arrays_fine(
            rows,
            columns,
            coefs,
            costs,
            lowers,
            uppers,
            lower_marks,
            upper_marks,
            rhs,
            ops,
            amounts,
            mults,
        )
}

// Whether both bounds are present and the lower is above the upper.
pub fn crosses(low: i64, high: i64, lowmark: u8, highmark: u8) -> bool
    ensures { result ≡ crosses low high lowmark highmark }
{
    (lowmark == 1) & (highmark == 1) & (high < low)
}

// 13, at opening.
pub fn uncrossed(
    rows: usize,
    columns: usize,
    coefs: &[i64],
    costs: &[i64],
    lowers: &[i64],
    uppers: &[i64],
    lower_marks: &[u8],
    upper_marks: &[u8],
    rhs: &[i64],
    ops: &[u8],
    amounts: &[i64],
    mults: &[i64],
) -> bool
    requires { PlanSized (plan_of rows columns coefs.now costs.now lowers.now uppers.now lower_marks.now
        upper_marks.now rhs.now ops.now amounts.now mults.now) }
    ensures { result ≡ uncrossed (plan_of rows columns coefs.now costs.now lowers.now
        uppers.now lower_marks.now upper_marks.now rhs.now
        ops.now amounts.now mults.now) }
{
    for j in 0..columns {
        if crosses(lowers[j], uppers[j], lower_marks[j], upper_marks[j]) {
            return false;
        }
    }
    true
}

// Whether each count is within its row or column number.
pub fn counts_fine(rows: usize, columns: usize, counts: &[i64]) -> bool
    requires { (rows ≤ max_columns) × (columns ≤ max_columns) × (4 ≤ length counts.now) }
    ensures { result ≡ counts_fine rows columns (kept_of [] [] [] [] counts.now) }
{
    count_fine(rows, counts[0])
        & count_fine(columns, counts[1])
        & count_fine(rows, counts[2])
        & count_fine(columns, counts[3])
}

// Whether every kept number is within its size.
pub fn kept_fine(
    rows: usize,
    columns: usize,
    r: &[i64],
    d: &[i64],
    c: &[i64],
    b: &[i64],
    counts: &[i64],
) -> bool
    requires { KeptSized rows columns (kept_of r.now d.now c.now b.now counts.now) }
    ensures { result ≡ kept_fine (sheet_of (bare rows columns)
        (kept_of r.now d.now c.now b.now counts.now)) }
{
    all_within(doubles::MAX_R, rows, r)
        & all_within(doubles::MAX_D, columns, d)
        & all_within(doubles::MAX_C, 1, c)
        & all_within(doubles::MAX_B, 1, b)
        & counts_fine(rows, columns, counts)
}
