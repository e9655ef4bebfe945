// What an edit is refused for, and its cell as it was. All functions read only.
#![tactic(auto)]

ghost use Rattle.std.specs.Prelude.{◌≡◌, not, ◌||◌, ◌<◌};
ghost use Rattle.sheet_rules.specs.Sheet.{plan_of, kept_of, sheet_of};
ghost use Rattle.sheet_rules.specs.Words.{Sized, Index, NumberIn};
ghost use Rattle.sheet_rules.specs.Edit.{uses_column, uses_row, index_fine, both_fine, column_fine, row_fine, sound_at, edit_refusal};
ghost use Rattle.sheet_tests.specs.Sized.{PlanSized};
ghost use Rattle.sheet_change_edit.specs.Rules.{rule_of, cell_at};

use sheet_rules::Edit;
use sheet_terms::size;

// A kind's refusal, 0 for a kind of today, and the limit of the number handed in.
#[derive(Clone, Copy)]
pub struct Rule {
    pub refusal: usize,
    pub limit: u64,
}

// A cell's number and mark; one that isn't a bound counts as present.
#[derive(Clone, Copy)]
pub struct Cell {
    pub number: i64,
    pub mark: u8,
}

// Kinds 8 and 9 take any number: no i64 is larger in size.
const ANY_NUMBER: u64 = 9223372036854775808;

// The kinds, each by itself; 10 to 31 are kept for later.
pub fn kind_rule(kind: usize) -> Rule
    ensures { result ≡ rule_of kind }
{
    match kind {
        1 => Rule {
            refusal: 0,
            limit: doubles::MAX_AMOUNT,
        },
        2 => Rule {
            refusal: 0,
            limit: doubles::MAX_COST,
        },
        3 => Rule {
            refusal: 0,
            limit: doubles::MAX_BOUND,
        },
        4 => Rule {
            refusal: 0,
            limit: doubles::MAX_BOUND,
        },
        5 => Rule {
            refusal: 0,
            limit: doubles::MAX_RIGHT_SIDE,
        },
        6 => Rule {
            refusal: 0,
            limit: doubles::MAX_COEFFICIENT,
        },
        7 => Rule {
            refusal: 0,
            limit: doubles::MAX_MULTIPLIER,
        },
        8 => Rule {
            refusal: 0,
            limit: ANY_NUMBER,
        },
        9 => Rule {
            refusal: 0,
            limit: ANY_NUMBER,
        },
        10..=31 => Rule {
            refusal: 15,
            limit: 0,
        },
        _ => Rule {
            refusal: 16,
            limit: 0,
        },
    }
}

// Kinds 5 and 7 use no column.
fn uses_column(kind: usize) -> bool
    ensures { result ≡ uses_column kind }
{
    !((kind == 5) | (kind == 7))
}

// Kinds 5, 6 and 7 use a row.
fn uses_row(kind: usize) -> bool
    ensures { result ≡ uses_row kind }
{
    (kind == 5) | (kind == 6) | (kind == 7)
}

// 11: whether the used indices are within the sheet.
fn index_fine(
    e: Edit,
    rows: usize,
    columns: usize,
    coefs: &[i64],
    costs: &[i64],
    lowers: &[i64],
    uppers: &[i64],
    lower_marks: &[u8],
    upper_marks: &[u8],
    rhs: &[i64],
    ops: &[u8],
    amounts: &[i64],
    mults: &[i64],
) -> bool
    ensures { result ≡ index_fine (plan_of rows columns coefs.now costs.now lowers.now
        uppers.now lower_marks.now upper_marks.now rhs.now
        ops.now amounts.now mults.now) e }
{
    (!uses_column(e.kind) | (e.column < columns)) & (!uses_row(e.kind) | (e.row < rows))
}

// 13: whether the column's bounds, as kinds 3 and 4 leave them, keep their order.
fn both_fine(
    e: Edit,
    rows: usize,
    columns: usize,
    coefs: &[i64],
    costs: &[i64],
    lowers: &[i64],
    uppers: &[i64],
    lower_marks: &[u8],
    upper_marks: &[u8],
    rhs: &[i64],
    ops: &[u8],
    amounts: &[i64],
    mults: &[i64],
    r: &[i64],
    d: &[i64],
    c: &[i64],
    b: &[i64],
    counts: &[i64],
) -> bool
    requires { Sized (sheet_of (plan_of rows columns coefs.now costs.now lowers.now uppers.now
        lower_marks.now upper_marks.now rhs.now ops.now amounts.now mults.now)
        (kept_of r.now d.now c.now b.now counts.now)) × Index
        (plan_of rows columns coefs.now costs.now lowers.now uppers.now lower_marks.now upper_marks.now
        rhs.now ops.now amounts.now mults.now) e × NumberIn e }
    ensures { result ≡ both_fine (plan_of rows columns coefs.now costs.now lowers.now
        uppers.now lower_marks.now upper_marks.now rhs.now
        ops.now amounts.now mults.now) e }
{
    let kind = e.kind;
    let j = e.column;
    if kind == 3 {
        return !sheet_tests::crosses(e.number, uppers[j], 1, upper_marks[j]);
    }
    if kind == 4 {
        return !sheet_tests::crosses(lowers[j], e.number, lower_marks[j], 1);
    }
    true
}

// Whether a column's coefficients are within their limit.
fn column_fine(
    column: usize,
    rows: usize,
    columns: usize,
    coefs: &[i64],
    costs: &[i64],
    lowers: &[i64],
    uppers: &[i64],
    lower_marks: &[u8],
    upper_marks: &[u8],
    rhs: &[i64],
    ops: &[u8],
    amounts: &[i64],
    mults: &[i64],
) -> bool
    requires { PlanSized (plan_of rows columns coefs.now costs.now lowers.now uppers.now lower_marks.now
        upper_marks.now rhs.now ops.now amounts.now mults.now) × (column < columns) }
    ensures { result ≡ column_fine (plan_of rows columns coefs.now costs.now lowers.now
        uppers.now lower_marks.now upper_marks.now rhs.now
        ops.now amounts.now mults.now) column }
{
    for i in 0..rows {
        if size(coefs[i * columns + column]) > doubles::MAX_COEFFICIENT {
            return false;
        }
    }
    true
}

// Whether a row's are.
fn row_fine(
    row: usize,
    rows: usize,
    columns: usize,
    coefs: &[i64],
    costs: &[i64],
    lowers: &[i64],
    uppers: &[i64],
    lower_marks: &[u8],
    upper_marks: &[u8],
    rhs: &[i64],
    ops: &[u8],
    amounts: &[i64],
    mults: &[i64],
) -> bool
    requires { PlanSized (plan_of rows columns coefs.now costs.now lowers.now uppers.now lower_marks.now
        upper_marks.now rhs.now ops.now amounts.now mults.now) × (row < rows) }
    ensures { result ≡ row_fine (plan_of rows columns coefs.now costs.now lowers.now
        uppers.now lower_marks.now upper_marks.now rhs.now
        ops.now amounts.now mults.now) row }
{
    for j in 0..columns {
        if size(coefs[row * columns + j]) > doubles::MAX_COEFFICIENT {
            return false;
        }
    }
    true
}

// Whether the coefficients of the used column are, and of the used row.
fn column_sound(
    e: Edit,
    rows: usize,
    columns: usize,
    coefs: &[i64],
    costs: &[i64],
    lowers: &[i64],
    uppers: &[i64],
    lower_marks: &[u8],
    upper_marks: &[u8],
    rhs: &[i64],
    ops: &[u8],
    amounts: &[i64],
    mults: &[i64],
) -> bool
    requires { PlanSized (plan_of rows columns coefs.now costs.now lowers.now uppers.now lower_marks.now
        upper_marks.now rhs.now ops.now amounts.now mults.now) × Index
        (plan_of rows columns coefs.now costs.now lowers.now uppers.now lower_marks.now upper_marks.now
        rhs.now ops.now amounts.now mults.now) e }
    ensures { result ≡ (not (uses_column e.kind) || column_fine
        (plan_of rows columns coefs.now costs.now lowers.now uppers.now
        lower_marks.now upper_marks.now rhs.now ops.now
        amounts.now mults.now) e.column) }
{
    if uses_column(e.kind) {
        return column_fine(
            e.column,
            rows,
            columns,
            coefs,
            costs,
            lowers,
            uppers,
            lower_marks,
            upper_marks,
            rhs,
            ops,
            amounts,
            mults,
        );
    }
    true
}

fn row_sound(
    e: Edit,
    rows: usize,
    columns: usize,
    coefs: &[i64],
    costs: &[i64],
    lowers: &[i64],
    uppers: &[i64],
    lower_marks: &[u8],
    upper_marks: &[u8],
    rhs: &[i64],
    ops: &[u8],
    amounts: &[i64],
    mults: &[i64],
) -> bool
    requires { PlanSized (plan_of rows columns coefs.now costs.now lowers.now uppers.now lower_marks.now
        upper_marks.now rhs.now ops.now amounts.now mults.now) × Index
        (plan_of rows columns coefs.now costs.now lowers.now uppers.now lower_marks.now upper_marks.now
        rhs.now ops.now amounts.now mults.now) e }
    ensures { result ≡ (not (uses_row e.kind) || row_fine
        (plan_of rows columns coefs.now costs.now lowers.now uppers.now
        lower_marks.now upper_marks.now rhs.now ops.now
        amounts.now mults.now) e.row) }
{
    if uses_row(e.kind) {
        return row_fine(
            e.row,
            rows,
            columns,
            coefs,
            costs,
            lowers,
            uppers,
            lower_marks,
            upper_marks,
            rhs,
            ops,
            amounts,
            mults,
        );
    }
    true
}

// 14, before the edit.
fn sound(
    e: Edit,
    rows: usize,
    columns: usize,
    coefs: &[i64],
    costs: &[i64],
    lowers: &[i64],
    uppers: &[i64],
    lower_marks: &[u8],
    upper_marks: &[u8],
    rhs: &[i64],
    ops: &[u8],
    amounts: &[i64],
    mults: &[i64],
    r: &[i64],
    d: &[i64],
    c: &[i64],
    b: &[i64],
    counts: &[i64],
) -> bool
    requires { Sized (sheet_of (plan_of rows columns coefs.now costs.now lowers.now uppers.now
        lower_marks.now upper_marks.now rhs.now ops.now amounts.now mults.now)
        (kept_of r.now d.now c.now b.now counts.now)) × Index
        (plan_of rows columns coefs.now costs.now lowers.now uppers.now lower_marks.now upper_marks.now
        rhs.now ops.now amounts.now mults.now) e }
    ensures { result ≡ sound_at e (sheet_of (plan_of rows columns coefs.now costs.now
        lowers.now uppers.now lower_marks.now upper_marks.now
        rhs.now ops.now amounts.now mults.now)
        (kept_of r.now d.now c.now b.now counts.now)) }
{
    sheet_tests::arrays_fine(
        rows,
        columns,
        coefs,
        costs,
        lowers,
        uppers,
        lower_marks,
        upper_marks,
        rhs,
        ops,
        amounts,
        mults,
    ) & column_sound(
        e,
        rows,
        columns,
        coefs,
        costs,
        lowers,
        uppers,
        lower_marks,
        upper_marks,
        rhs,
        ops,
        amounts,
        mults,
    ) & row_sound(
        e,
        rows,
        columns,
        coefs,
        costs,
        lowers,
        uppers,
        lower_marks,
        upper_marks,
        rhs,
        ops,
        amounts,
        mults,
    ) & sheet_tests::kept_fine(rows, columns, r, d, c, b, counts)
}

// The edited cell as it is before the edit. No call of today reads it: it is for the journal of 02 (Ask 12), which
// stores an edit's "old number and new one".
pub fn old_cell(
    e: Edit,
    rows: usize,
    columns: usize,
    coefs: &[i64],
    costs: &[i64],
    lowers: &[i64],
    uppers: &[i64],
    lower_marks: &[u8],
    upper_marks: &[u8],
    rhs: &[i64],
    ops: &[u8],
    amounts: &[i64],
    mults: &[i64],
) -> Cell
    requires { PlanSized (plan_of rows columns coefs.now costs.now lowers.now uppers.now lower_marks.now
        upper_marks.now rhs.now ops.now amounts.now mults.now) × Index
        (plan_of rows columns coefs.now costs.now lowers.now uppers.now lower_marks.now upper_marks.now
        rhs.now ops.now amounts.now mults.now) e }
    ensures { result ≡ cell_at (plan_of rows columns coefs.now costs.now lowers.now
        uppers.now lower_marks.now upper_marks.now rhs.now
        ops.now amounts.now mults.now) e }
{
    let kind = e.kind;
    let i = e.row;
    let j = e.column;
    match kind {
        1 => Cell {
            number: amounts[j],
            mark: 1,
        },
        2 => Cell {
            number: costs[j],
            mark: 1,
        },
        3 => Cell {
            number: lowers[j],
            mark: lower_marks[j],
        },
        4 => Cell {
            number: uppers[j],
            mark: upper_marks[j],
        },
        5 => Cell {
            number: rhs[i],
            mark: 1,
        },
        6 => Cell {
            number: coefs[i * columns + j],
            mark: 1,
        },
        7 => Cell {
            number: mults[i],
            mark: 1,
        },
        8 => Cell {
            number: lowers[j],
            mark: lower_marks[j],
        },
        9 => Cell {
            number: uppers[j],
            mark: upper_marks[j],
        },
        _ => Cell { number: 0, mark: 1 },
    }
}

// The number of the refusal, or 0. 01: "Order: 16, 15, then 11 as at opening or a bad index, 12 number, 13 .., 14 ..".
pub fn edit_refusal(
    e: Edit,
    rows: usize,
    columns: usize,
    coefs: &[i64],
    costs: &[i64],
    lowers: &[i64],
    uppers: &[i64],
    lower_marks: &[u8],
    upper_marks: &[u8],
    rhs: &[i64],
    ops: &[u8],
    amounts: &[i64],
    mults: &[i64],
    r: &[i64],
    d: &[i64],
    c: &[i64],
    b: &[i64],
    counts: &[i64],
) -> usize
    ensures { result ≡ edit_refusal (sheet_of (plan_of rows columns coefs.now costs.now
        lowers.now uppers.now lower_marks.now upper_marks.now
        rhs.now ops.now amounts.now mults.now)
        (kept_of r.now d.now c.now b.now counts.now)) e }
{
    let rule = kind_rule(e.kind);
    if rule.refusal != 0 {
        return rule.refusal;
    }
    if !sheet_tests::sizes_fine(
        rows,
        columns,
        coefs,
        costs,
        lowers,
        uppers,
        lower_marks,
        upper_marks,
        rhs,
        ops,
        amounts,
        mults,
        r,
        d,
        c,
        b,
        counts,
    ) {
        return 11;
    }
    if !index_fine(
        e,
        rows,
        columns,
        coefs,
        costs,
        lowers,
        uppers,
        lower_marks,
        upper_marks,
        rhs,
        ops,
        amounts,
        mults,
    ) {
        return 11;
    }
    if size(e.number) > rule.limit {
        return 12;
    }
    if !both_fine(
        e,
        rows,
        columns,
        coefs,
        costs,
        lowers,
        uppers,
        lower_marks,
        upper_marks,
        rhs,
        ops,
        amounts,
        mults,
        r,
        d,
        c,
        b,
        counts,
    ) {
        return 13;
    }
    if !sound(
        e,
        rows,
        columns,
        coefs,
        costs,
        lowers,
        uppers,
        lower_marks,
        upper_marks,
        rhs,
        ops,
        amounts,
        mults,
        r,
        d,
        c,
        b,
        counts,
    ) {
        return 14;
    }
    if !sheet_change_after::moved_fine(
        e,
        rows,
        columns,
        coefs,
        costs,
        lowers,
        uppers,
        lower_marks,
        upper_marks,
        rhs,
        ops,
        amounts,
        mults,
        r,
        d,
        c,
        b,
        counts,
    ) {
        return 14;
    }
    0
}
