// What an edit leaves of every kept number. All functions read only.
#![tactic(auto)]

ghost use Rattle.std.specs.Prelude.{◌≡◌, ◌≤◌, ◌<◌, nat_abs, ◌+ℤ◌};
ghost use Rattle.doubles.specs.Limits.{max_r, max_d};
ghost use Rattle.doubles.specs.Loop.{all};
ghost use Rattle.sheet_rules.specs.Sheet.{plan_of, kept_of, sheet_of};
ghost use Rattle.sheet_rules.specs.Opening.{within};
ghost use Rattle.sheet_rules.specs.Edit.{moved_r, moved_d, moved_fine};
ghost use Rattle.sheet_rules.specs.Words.{Today};
ghost use Rattle.sheet_change_moves.specs.After.{Ready, totals_after};
ghost use Rattle.sheet_change_after.specs.Change.{PlanReady, row_change, price_change};

use sheet_change_moves::Totals;
use sheet_rules::Edit;
use sheet_terms::size;

// C, B and the counts. Kinds 2, 3, 4, 8 and 9 touch no column but their own, and no row.
pub fn totals_after(
    e: Edit,
    rows: usize,
    columns: usize,
    coefs: &[i64],
    costs: &[i64],
    lowers: &[i64],
    uppers: &[i64],
    lower_marks: &[u8],
    upper_marks: &[u8],
    rhs: &[i64],
    ops: &[u8],
    amounts: &[i64],
    mults: &[i64],
    r: &[i64],
    d: &[i64],
    c: &[i64],
    b: &[i64],
    counts: &[i64],
) -> Totals
    requires { Ready (sheet_of (plan_of rows columns coefs.now costs.now lowers.now uppers.now
        lower_marks.now upper_marks.now rhs.now ops.now amounts.now mults.now)
        (kept_of r.now d.now c.now b.now counts.now)) e × Today e }
    ensures { result ≡ totals_after (sheet_of (plan_of rows columns coefs.now costs.now
        lowers.now uppers.now lower_marks.now upper_marks.now
        rhs.now ops.now amounts.now mults.now)
        (kept_of r.now d.now c.now b.now counts.now)) e }
{
    let t = sheet_change_totals::totals_now(c, b, counts);
    let x = sheet_change_totals::column_at(
        columns,
        e.column,
        costs,
        lowers,
        uppers,
        lower_marks,
        upper_marks,
        amounts,
        d,
    );
    let y = sheet_change_totals::row_at(rows, e.row, rhs, ops, r, mults);
    let kind = e.kind;
    match kind {
        1 => sheet_change_totals::amount_totals(e, t, x, rows, columns, coefs, rhs, ops, r),
        5 => sheet_change_totals::row_totals(e, t, y),
        6 => sheet_change_totals::coef_totals(e, t, x, y, coefs[e.row * columns + e.column]),
        7 => sheet_change_totals::mult_totals(
            e,
            t,
            y,
            rows,
            columns,
            coefs,
            lowers,
            uppers,
            lower_marks,
            upper_marks,
            d,
        ),
        _ => sheet_change_totals::column_totals(e, t, x),
    }
}

// R of row i, where it was `old`.
pub fn activity_after(
    e: Edit,
    i: usize,
    old: i64,
    rows: usize,
    columns: usize,
    coefs: &[i64],
    costs: &[i64],
    lowers: &[i64],
    uppers: &[i64],
    lower_marks: &[u8],
    upper_marks: &[u8],
    rhs: &[i64],
    ops: &[u8],
    amounts: &[i64],
    mults: &[i64],
) -> i64
    requires { PlanReady (plan_of rows columns coefs.now costs.now lowers.now uppers.now lower_marks.now
        upper_marks.now rhs.now ops.now amounts.now mults.now) e × (i < rows) × (nat_abs old ≤ max_r) }
    ensures { result ≡ old +ℤ row_change (plan_of rows columns coefs.now costs.now
        lowers.now uppers.now lower_marks.now upper_marks.now
        rhs.now ops.now amounts.now mults.now) e i }
{
    let kind = e.kind;
    let j = e.column;
    match kind {
        1 => old + coefs[i * columns + j] * (e.number - amounts[j]),
        6 => {
            if i == e.row {
                old + (e.number - coefs[i * columns + j]) * amounts[j]
            } else {
                old
            }
        }
        _ => old,
    }
}

// D of column j, where it was `old`.
pub fn price_after(
    e: Edit,
    j: usize,
    old: i64,
    rows: usize,
    columns: usize,
    coefs: &[i64],
    costs: &[i64],
    lowers: &[i64],
    uppers: &[i64],
    lower_marks: &[u8],
    upper_marks: &[u8],
    rhs: &[i64],
    ops: &[u8],
    amounts: &[i64],
    mults: &[i64],
) -> i64
    requires { PlanReady (plan_of rows columns coefs.now costs.now lowers.now uppers.now lower_marks.now
        upper_marks.now rhs.now ops.now amounts.now mults.now) e × (j < columns) × (nat_abs old ≤ max_d) }
    ensures { result ≡ old +ℤ price_change (plan_of rows columns coefs.now costs.now
        lowers.now uppers.now lower_marks.now upper_marks.now
        rhs.now ops.now amounts.now mults.now) e j }
{
    let kind = e.kind;
    let i = e.row;
    match kind {
        2 => {
            if j == e.column {
                old + doubles::UNIT * (e.number - costs[j])
            } else {
                old
            }
        }
        6 => {
            if j == e.column {
                old - (e.number - coefs[i * columns + j]) * mults[i]
            } else {
                old
            }
        }
        7 => old - coefs[i * columns + j] * (e.number - mults[i]),
        _ => old,
    }
}

// Whether every R stays within its size.
fn activities_stay(
    e: Edit,
    rows: usize,
    columns: usize,
    coefs: &[i64],
    costs: &[i64],
    lowers: &[i64],
    uppers: &[i64],
    lower_marks: &[u8],
    upper_marks: &[u8],
    rhs: &[i64],
    ops: &[u8],
    amounts: &[i64],
    mults: &[i64],
    r: &[i64],
    d: &[i64],
    c: &[i64],
    b: &[i64],
    counts: &[i64],
) -> bool
    requires { Ready (sheet_of (plan_of rows columns coefs.now costs.now lowers.now uppers.now
        lower_marks.now upper_marks.now rhs.now ops.now amounts.now mults.now)
        (kept_of r.now d.now c.now b.now counts.now)) e }
    ensures { result ≡ all rows (λ i. within max_r
        (moved_r (sheet_of (plan_of rows columns coefs.now costs.now lowers.now
        uppers.now lower_marks.now upper_marks.now rhs.now
        ops.now amounts.now mults.now)
        (kept_of r.now d.now c.now b.now counts.now)) e i)) }
{
    for i in 0..rows {
        if size(activity_after(
            e,
            i,
            r[i],
            rows,
            columns,
            coefs,
            costs,
            lowers,
            uppers,
            lower_marks,
            upper_marks,
            rhs,
            ops,
            amounts,
            mults,
        )) > doubles::MAX_R
        {
            return false;
        }
    }
    true
}

// Whether every D does.
fn prices_stay(
    e: Edit,
    rows: usize,
    columns: usize,
    coefs: &[i64],
    costs: &[i64],
    lowers: &[i64],
    uppers: &[i64],
    lower_marks: &[u8],
    upper_marks: &[u8],
    rhs: &[i64],
    ops: &[u8],
    amounts: &[i64],
    mults: &[i64],
    r: &[i64],
    d: &[i64],
    c: &[i64],
    b: &[i64],
    counts: &[i64],
) -> bool
    requires { Ready (sheet_of (plan_of rows columns coefs.now costs.now lowers.now uppers.now
        lower_marks.now upper_marks.now rhs.now ops.now amounts.now mults.now)
        (kept_of r.now d.now c.now b.now counts.now)) e }
    ensures { result ≡ all columns (λ j. within max_d
        (moved_d (sheet_of (plan_of rows columns coefs.now costs.now lowers.now
        uppers.now lower_marks.now upper_marks.now rhs.now
        ops.now amounts.now mults.now)
        (kept_of r.now d.now c.now b.now counts.now)) e j)) }
{
    for j in 0..columns {
        if size(price_after(
            e,
            j,
            d[j],
            rows,
            columns,
            coefs,
            costs,
            lowers,
            uppers,
            lower_marks,
            upper_marks,
            rhs,
            ops,
            amounts,
            mults,
        )) > doubles::MAX_D
        {
            return false;
        }
    }
    true
}

// 14, after the edit.
pub fn moved_fine(
    e: Edit,
    rows: usize,
    columns: usize,
    coefs: &[i64],
    costs: &[i64],
    lowers: &[i64],
    uppers: &[i64],
    lower_marks: &[u8],
    upper_marks: &[u8],
    rhs: &[i64],
    ops: &[u8],
    amounts: &[i64],
    mults: &[i64],
    r: &[i64],
    d: &[i64],
    c: &[i64],
    b: &[i64],
    counts: &[i64],
) -> bool
    requires { Ready (sheet_of (plan_of rows columns coefs.now costs.now lowers.now uppers.now
        lower_marks.now upper_marks.now rhs.now ops.now amounts.now mults.now)
        (kept_of r.now d.now c.now b.now counts.now)) e × Today e }
    ensures { result ≡ moved_fine (sheet_of (plan_of rows columns coefs.now costs.now
        lowers.now uppers.now lower_marks.now upper_marks.now
        rhs.now ops.now amounts.now mults.now)
        (kept_of r.now d.now c.now b.now counts.now)) e }
{
    let t = totals_after(
        e,
        rows,
        columns,
        coefs,
        costs,
        lowers,
        uppers,
        lower_marks,
        upper_marks,
        rhs,
        ops,
        amounts,
        mults,
        r,
        d,
        c,
        b,
        counts,
    );
    activities_stay(
        e,
        rows,
        columns,
        coefs,
        costs,
        lowers,
        uppers,
        lower_marks,
        upper_marks,
        rhs,
        ops,
        amounts,
        mults,
        r,
        d,
        c,
        b,
        counts,
    ) & prices_stay(
        e,
        rows,
        columns,
        coefs,
        costs,
        lowers,
        uppers,
        lower_marks,
        upper_marks,
        rhs,
        ops,
        amounts,
        mults,
        r,
        d,
        c,
        b,
        counts,
    ) & (size(t.cost) <= doubles::MAX_C)
        & (size(t.floor) <= doubles::MAX_B)
        & sheet_tests::count_fine(rows, t.broken)
        & sheet_tests::count_fine(columns, t.outside)
        & sheet_tests::count_fine(rows, t.wrong)
        & sheet_tests::count_fine(columns, t.absent)
}
