// The audit sheet's public calls that write. They ask nothing: whatever is lent, the answer and every lent cell
// afterwards are settled.
#![tactic(auto)]

ghost use Rattle.sheet_rules.specs.Sheet.{plan_of, kept_of, sheet_of};
ghost use Rattle.sheet_rules.specs.Promises.{Opens, Edits};

use sheet_rules::Edit;

// Opens a sheet: 11, 12 or 13 and nothing changed, or 0 and the kept numbers worked out afresh.
pub fn open(
    rows: usize,
    columns: usize,
    coefs: &[i64],
    costs: &[i64],
    lowers: &[i64],
    uppers: &[i64],
    lower_marks: &[u8],
    upper_marks: &[u8],
    rhs: &[i64],
    ops: &[u8],
    amounts: &[i64],
    mults: &[i64],
    r: &mut [i64],
    d: &mut [i64],
    c: &mut [i64],
    b: &mut [i64],
    counts: &mut [i64],
) -> usize
    ensures { Opens (sheet_of (plan_of rows columns coefs.now costs.now lowers.now
        uppers.now lower_marks.now upper_marks.now rhs.now
        ops.now amounts.now mults.now)
        (kept_of r.old d.old c.old b.old counts.old)) result
        (sheet_of (plan_of rows columns coefs.now costs.now lowers.now
        uppers.now lower_marks.now upper_marks.now rhs.now
        ops.now amounts.now mults.now)
        (kept_of r.new d.new c.new b.new counts.new)) }
{
    let refusal = sheet_open::opening(
        rows,
        columns,
        coefs,
        costs,
        lowers,
        uppers,
        lower_marks,
        upper_marks,
        rhs,
        ops,
        amounts,
        mults,
        r,
        d,
        c,
        b,
        counts,
    );
    if refusal == 0 {
        sheet_open::write_kept(
            rows,
            columns,
            coefs,
            costs,
            lowers,
            uppers,
            lower_marks,
            upper_marks,
            rhs,
            ops,
            amounts,
            mults,
            r,
            d,
            c,
            b,
            counts,
        );
    }
    refusal
}

// Edits a sheet: 11 to 16 and nothing changed, or 0, the edited cell written and every touched kept number moved.
pub fn edit(
    kind: usize,
    row: usize,
    column: usize,
    number: i64,
    rows: usize,
    columns: usize,
    coefs: &mut [i64],
    costs: &mut [i64],
    lowers: &mut [i64],
    uppers: &mut [i64],
    lower_marks: &mut [u8],
    upper_marks: &mut [u8],
    rhs: &mut [i64],
    ops: &[u8],
    amounts: &mut [i64],
    mults: &mut [i64],
    r: &mut [i64],
    d: &mut [i64],
    c: &mut [i64],
    b: &mut [i64],
    counts: &mut [i64],
) -> usize
    ensures { Edits (sheet_of (plan_of rows columns coefs.old costs.old lowers.old
        uppers.old lower_marks.old upper_marks.old rhs.old
        ops.now amounts.old mults.old)
        (kept_of r.old d.old c.old b.old counts.old))
        (record { kind = kind; row = row; column = column; number = number }) result
        (sheet_of (plan_of rows columns coefs.new costs.new lowers.new uppers.new
        lower_marks.new upper_marks.new rhs.new ops.now
        amounts.new mults.new)
        (kept_of r.new d.new c.new b.new counts.new)) }
{
    let e = Edit {
        kind: kind,
        row: row,
        column: column,
        number: number,
    };
    let refusal = sheet_change_edit::edit_refusal(
        e,
        rows,
        columns,
        coefs,
        costs,
        lowers,
        uppers,
        lower_marks,
        upper_marks,
        rhs,
        ops,
        amounts,
        mults,
        r,
        d,
        c,
        b,
        counts,
    );
    if refusal == 0 {
        sheet_store_apply::apply_edit(
            e,
            rows,
            columns,
            coefs,
            costs,
            lowers,
            uppers,
            lower_marks,
            upper_marks,
            rhs,
            ops,
            amounts,
            mults,
            r,
            d,
            c,
            b,
            counts,
        );
    }
    refusal
}
