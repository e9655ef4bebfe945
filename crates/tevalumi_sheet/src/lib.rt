// The audit sheet, and doubles to whole numbers, for C and Rust.
#![tactic(auto)]

ghost use Rattle.std.specs.Prelude.{◌≡◌};
ghost use Rattle.sheet_rules.specs.Promises.{Opens, Edits};
ghost use Rattle.sheet_rules.specs.Sheet.{plan_of, kept_of, sheet_of};
ghost use Rattle.sheet_rules.specs.Verdict.{verdict, verdict_numbers};
ghost use Rattle.face.specs.Face.{sheet_numbers};

mod wholes;

use face::SheetVerdict;

// Works the kept numbers out afresh.
#[unsafe(no_mangle)]
pub extern "C" fn tevalumi_open(
    rows: usize,
    columns: usize,
    coefs: &[i64],
    costs: &[i64],
    lowers: &[i64],
    uppers: &[i64],
    lower_marks: &[u8],
    upper_marks: &[u8],
    rhs: &[i64],
    ops: &[u8],
    amounts: &[i64],
    mults: &[i64],
    r: &mut [i64],
    d: &mut [i64],
    c: &mut [i64],
    b: &mut [i64],
    counts: &mut [i64],
) -> usize
    ensures { Opens (sheet_of (plan_of rows columns coefs.now costs.now lowers.now
        uppers.now lower_marks.now upper_marks.now rhs.now
        ops.now amounts.now mults.now)
        (kept_of r.old d.old c.old b.old counts.old)) result
        (sheet_of (plan_of rows columns coefs.now costs.now lowers.now
        uppers.now lower_marks.now upper_marks.now rhs.now
        ops.now amounts.now mults.now)
        (kept_of r.new d.new c.new b.new counts.new)) }
{
    sheet::open(
        rows,
        columns,
        coefs,
        costs,
        lowers,
        uppers,
        lower_marks,
        upper_marks,
        rhs,
        ops,
        amounts,
        mults,
        r,
        d,
        c,
        b,
        counts,
    )
}

// One edit, by its kind.
#[unsafe(no_mangle)]
pub extern "C" fn tevalumi_edit(
    kind: usize,
    row: usize,
    column: usize,
    number: i64,
    rows: usize,
    columns: usize,
    coefs: &mut [i64],
    costs: &mut [i64],
    lowers: &mut [i64],
    uppers: &mut [i64],
    lower_marks: &mut [u8],
    upper_marks: &mut [u8],
    rhs: &mut [i64],
    ops: &[u8],
    amounts: &mut [i64],
    mults: &mut [i64],
    r: &mut [i64],
    d: &mut [i64],
    c: &mut [i64],
    b: &mut [i64],
    counts: &mut [i64],
) -> usize
    ensures { Edits (sheet_of (plan_of rows columns coefs.old costs.old lowers.old
        uppers.old lower_marks.old upper_marks.old rhs.old
        ops.now amounts.old mults.old)
        (kept_of r.old d.old c.old b.old counts.old))
        (record { kind = kind; row = row; column = column; number = number }) result
        (sheet_of (plan_of rows columns coefs.new costs.new lowers.new uppers.new
        lower_marks.new upper_marks.new rhs.new ops.now
        amounts.new mults.new)
        (kept_of r.new d.new c.new b.new counts.new)) }
{
    sheet::edit(
        kind,
        row,
        column,
        number,
        rows,
        columns,
        coefs,
        costs,
        lowers,
        uppers,
        lower_marks,
        upper_marks,
        rhs,
        ops,
        amounts,
        mults,
        r,
        d,
        c,
        b,
        counts,
    )
}

// Reads only.
#[unsafe(no_mangle)]
pub extern "C" fn tevalumi_verdict(
    rows: usize,
    columns: usize,
    coefs: &[i64],
    costs: &[i64],
    lowers: &[i64],
    uppers: &[i64],
    lower_marks: &[u8],
    upper_marks: &[u8],
    rhs: &[i64],
    ops: &[u8],
    amounts: &[i64],
    mults: &[i64],
    r: &[i64],
    d: &[i64],
    c: &[i64],
    b: &[i64],
    counts: &[i64],
) -> SheetVerdict
    ensures { sheet_numbers result ≡ verdict_numbers
        (verdict (sheet_of (plan_of rows columns coefs.now costs.now lowers.now
        uppers.now lower_marks.now upper_marks.now rhs.now
        ops.now amounts.now mults.now)
        (kept_of r.now d.now c.now b.now counts.now))) }
{
    let v = sheet_verdict::verdict(
        rows,
        columns,
        coefs,
        costs,
        lowers,
        uppers,
        lower_marks,
        upper_marks,
        rhs,
        ops,
        amounts,
        mults,
        r,
        d,
        c,
        b,
        counts,
    );
    SheetVerdict::from(v)
}
