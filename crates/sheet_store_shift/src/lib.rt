// How an accepted edit moves R and D. Only the rows and columns that it can touch are gone through.
#![tactic(auto)]

ghost use Rattle.std.specs.Prelude.{◌≡◌, true, [], ◌<◌};
ghost use Rattle.doubles.specs.Limits.{max_r, max_d};
ghost use Rattle.doubles.specs.Lists.{over};
ghost use Rattle.doubles.specs.Loop.{table};
ghost use Rattle.sheet_rules.specs.Sheet.{plan_of, kept_of, sheet_of};
ghost use Rattle.sheet_rules.specs.Edit.{moved_r, moved_d};
ghost use Rattle.sheet_terms.specs.Small.{Small};
ghost use Rattle.sheet_change_after.specs.Change.{PlanReady};
ghost use Rattle.sheet_store_shift.specs.Span.{span_by};

use sheet_rules::Edit;

// The places from `from` up to, not including, `end`.
#[derive(Clone, Copy)]
pub struct Span {
    pub from: usize,
    pub end: usize,
}

// Every one of n places, or one of them, or none.
fn touched_span(every: bool, one: bool, n: usize, i: usize) -> Span
    requires { one ≡ true → i < n }
    ensures { result ≡ span_by every one n i }
{
    if every {
        return Span { from: 0, end: n };
    }
    if one {
        return Span {
            from: i,
            end: i + 1,
        };
    }
    Span { from: 0, end: 0 }
}

// R: kind 1 moves every row, 6 its own, the others none.
pub fn move_activities(
    rows: usize,
    columns: usize,
    coefs: &[i64],
    costs: &[i64],
    lowers: &[i64],
    uppers: &[i64],
    lower_marks: &[u8],
    upper_marks: &[u8],
    rhs: &[i64],
    ops: &[u8],
    amounts: &[i64],
    mults: &[i64],
    e: Edit,
    r: &mut [i64],
)
    requires { PlanReady (plan_of rows columns coefs.now costs.now lowers.now uppers.now lower_marks.now
        upper_marks.now rhs.now ops.now amounts.now mults.now) e × Small max_r rows r.old }
    ensures { r.new ≡ over (table rows
        (moved_r (sheet_of (plan_of rows columns coefs.now costs.now lowers.now
        uppers.now lower_marks.now upper_marks.now rhs.now
        ops.now amounts.now mults.now) (kept_of r.old [] [] [] [])) e))
        r.old }
{
    let kind = e.kind;
    let places = touched_span(kind == 1, kind == 6, rows, e.row);
    for i in places.from..places.end {
        r[i] = sheet_change_after::activity_after(
            e,
            i,
            r[i],
            rows,
            columns,
            coefs,
            costs,
            lowers,
            uppers,
            lower_marks,
            upper_marks,
            rhs,
            ops,
            amounts,
            mults,
        );
    }
}

// D: kind 7 moves every column, 2 and 6 their own, the others none.
pub fn move_prices(
    rows: usize,
    columns: usize,
    coefs: &[i64],
    costs: &[i64],
    lowers: &[i64],
    uppers: &[i64],
    lower_marks: &[u8],
    upper_marks: &[u8],
    rhs: &[i64],
    ops: &[u8],
    amounts: &[i64],
    mults: &[i64],
    e: Edit,
    d: &mut [i64],
)
    requires { PlanReady (plan_of rows columns coefs.now costs.now lowers.now uppers.now lower_marks.now
        upper_marks.now rhs.now ops.now amounts.now mults.now) e × Small max_d columns d.old }
    ensures { d.new ≡ over (table columns
        (moved_d (sheet_of (plan_of rows columns coefs.now costs.now lowers.now
        uppers.now lower_marks.now upper_marks.now rhs.now
        ops.now amounts.now mults.now) (kept_of [] d.old [] [] [])) e))
        d.old }
{
    let kind = e.kind;
    let places = touched_span(kind == 7, (kind == 2) | (kind == 6), columns, e.column);
    for j in places.from..places.end {
        d[j] = sheet_change_after::price_after(
            e,
            j,
            d[j],
            rows,
            columns,
            coefs,
            costs,
            lowers,
            uppers,
            lower_marks,
            upper_marks,
            rhs,
            ops,
            amounts,
            mults,
        );
    }
}
