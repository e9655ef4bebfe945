// An accepted edit: every kept number moves by the change in its terms, then the edited cell takes its number and mark.
// Nothing is refused here.
#![tactic(auto)]

ghost use Rattle.std.specs.Prelude.{◌≡◌};
ghost use Rattle.sheet_rules.specs.Sheet.{plan_of, kept_of, sheet_of, over_kept};
ghost use Rattle.sheet_rules.specs.Edit.{moved, applied};
ghost use Rattle.sheet_rules.specs.Words.{Today};
ghost use Rattle.sheet_change_moves.specs.After.{Ready};

use sheet_rules::Edit;

// The kept numbers. The totals are reckoned from R and D as they were.
fn move_kept(
    e: Edit,
    rows: usize,
    columns: usize,
    coefs: &[i64],
    costs: &[i64],
    lowers: &[i64],
    uppers: &[i64],
    lower_marks: &[u8],
    upper_marks: &[u8],
    rhs: &[i64],
    ops: &[u8],
    amounts: &[i64],
    mults: &[i64],
    r: &mut [i64],
    d: &mut [i64],
    c: &mut [i64],
    b: &mut [i64],
    counts: &mut [i64],
)
    requires { Ready (sheet_of (plan_of rows columns coefs.now costs.now lowers.now uppers.now
        lower_marks.now upper_marks.now rhs.now ops.now amounts.now mults.now)
        (kept_of r.old d.old c.old b.old counts.old)) e × Today e }
    ensures { kept_of r.new d.new c.new b.new counts.new ≡
        over_kept (moved (sheet_of (plan_of rows columns coefs.now costs.now lowers.now
        uppers.now lower_marks.now upper_marks.now rhs.now
        ops.now amounts.now mults.now)
        (kept_of r.old d.old c.old b.old counts.old)) e)
        (kept_of r.old d.old c.old b.old counts.old) }
{
    let t = sheet_change_after::totals_after(
        e,
        rows,
        columns,
        coefs,
        costs,
        lowers,
        uppers,
        lower_marks,
        upper_marks,
        rhs,
        ops,
        amounts,
        mults,
        r,
        d,
        c,
        b,
        counts,
    );
    sheet_store_shift::move_activities(
        rows,
        columns,
        coefs,
        costs,
        lowers,
        uppers,
        lower_marks,
        upper_marks,
        rhs,
        ops,
        amounts,
        mults,
        e,
        r,
    );
    sheet_store_shift::move_prices(
        rows,
        columns,
        coefs,
        costs,
        lowers,
        uppers,
        lower_marks,
        upper_marks,
        rhs,
        ops,
        amounts,
        mults,
        e,
        d,
    );
    sheet_store_put::store_totals(t, c, b, counts);
}

// The whole sheet. Terms are read from the plan before its cell is written.
pub fn apply_edit(
    e: Edit,
    rows: usize,
    columns: usize,
    coefs: &mut [i64],
    costs: &mut [i64],
    lowers: &mut [i64],
    uppers: &mut [i64],
    lower_marks: &mut [u8],
    upper_marks: &mut [u8],
    rhs: &mut [i64],
    ops: &[u8],
    amounts: &mut [i64],
    mults: &mut [i64],
    r: &mut [i64],
    d: &mut [i64],
    c: &mut [i64],
    b: &mut [i64],
    counts: &mut [i64],
)
    requires { Ready (sheet_of (plan_of rows columns coefs.old costs.old lowers.old uppers.old
        lower_marks.old upper_marks.old rhs.old ops.now amounts.old mults.old)
        (kept_of r.old d.old c.old b.old counts.old)) e × Today e }
    ensures { sheet_of (plan_of rows columns coefs.new costs.new lowers.new
        uppers.new lower_marks.new upper_marks.new rhs.new
        ops.now amounts.new mults.new)
        (kept_of r.new d.new c.new b.new counts.new) ≡ applied
        (sheet_of (plan_of rows columns coefs.old costs.old lowers.old
        uppers.old lower_marks.old upper_marks.old rhs.old
        ops.now amounts.old mults.old)
        (kept_of r.old d.old c.old b.old counts.old)) e }
{
    move_kept(
        e,
        rows,
        columns,
        coefs,
        costs,
        lowers,
        uppers,
        lower_marks,
        upper_marks,
        rhs,
        ops,
        amounts,
        mults,
        r,
        d,
        c,
        b,
        counts,
    );
    sheet_store_put::put_cell(
        e,
        rows,
        columns,
        coefs,
        costs,
        lowers,
        uppers,
        lower_marks,
        upper_marks,
        rhs,
        ops,
        amounts,
        mults,
    );
}
