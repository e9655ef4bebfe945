// A sheet as text, for the program that replays sheets: its kept numbers with the verdict, and the cells of its plan.
#![tactic(auto)]

use sheet_rules::Verdict;
use std::io;
use std::io::Write;

pub const ROWS: usize = doubles::MAX_ROWS;

pub const COLUMNS: usize = doubles::MAX_COLUMNS;

pub const COEFS: usize = doubles::MAX_ROWS * doubles::MAX_COLUMNS;

fn show_verdict<W: Write>(out: &mut W, v: Verdict) -> io::Result<()> {
    words::text(out, b" verdict")?;
    match v {
        Verdict::NoneExists => words::text(out, b" none"),
        Verdict::NotPlan => words::text(out, b" no-plan"),
        Verdict::NoFloor => words::text(out, b" no-floor"),
        Verdict::Gap(gap) => {
            words::text(out, b" gap:")?;
            if gap < 0 {
                words::text(out, b"-")?;
            }
            words::decimal(out, gap.unsigned_abs())
        }
        Verdict::Refused(number) => words::place(out, number),
    }
}

// The kept numbers and the verdict.
pub fn show_kept<W: Write>(
    out: &mut W,
    rows: usize,
    columns: usize,
    coefs: &[i64; COEFS],
    costs: &[i64; COLUMNS],
    lowers: &[i64; COLUMNS],
    uppers: &[i64; COLUMNS],
    lower_marks: &[u8; COLUMNS],
    upper_marks: &[u8; COLUMNS],
    rhs: &[i64; ROWS],
    ops: &[u8; ROWS],
    amounts: &[i64; COLUMNS],
    mults: &[i64; ROWS],
    r: &[i64; ROWS],
    d: &[i64; COLUMNS],
    c: &[i64; 1],
    b: &[i64; 1],
    counts: &[i64; 4],
) -> io::Result<()> {
    words::text(out, b" R")?;
    words::list(out, r, rows)?;
    words::text(out, b" D")?;
    words::list(out, d, columns)?;
    words::text(out, b" C")?;
    words::list(out, c, 1)?;
    words::text(out, b" B")?;
    words::list(out, b, 1)?;
    words::text(out, b" counts")?;
    words::list(out, counts, 4)?;
    let v = sheet_verdict::verdict(
        rows,
        columns,
        coefs,
        costs,
        lowers,
        uppers,
        lower_marks,
        upper_marks,
        rhs,
        ops,
        amounts,
        mults,
        r,
        d,
        c,
        b,
        counts,
    );
    show_verdict(out, v)?;
    words::end_line(out)
}

// The cells of the plan, as many as were lent.
pub fn show_plan<W: Write>(
    out: &mut W,
    n_coefs: usize,
    n_costs: usize,
    n_lowers: usize,
    n_uppers: usize,
    n_lower_marks: usize,
    n_upper_marks: usize,
    n_rights: usize,
    n_ops: usize,
    n_amounts: usize,
    n_mults: usize,
    coefs: &[i64; COEFS],
    costs: &[i64; COLUMNS],
    lowers: &[i64; COLUMNS],
    uppers: &[i64; COLUMNS],
    lower_marks: &[u8; COLUMNS],
    upper_marks: &[u8; COLUMNS],
    rhs: &[i64; ROWS],
    ops: &[u8; ROWS],
    amounts: &[i64; COLUMNS],
    mults: &[i64; ROWS],
) -> io::Result<()> {
    words::text(out, b"end")?;
    words::text(out, b" coef")?;
    words::list(out, coefs, n_coefs)?;
    words::text(out, b" cost")?;
    words::list(out, costs, n_costs)?;
    words::text(out, b" lower")?;
    words::list(out, lowers, n_lowers)?;
    words::text(out, b" upper")?;
    words::list(out, uppers, n_uppers)?;
    words::text(out, b" haslow")?;
    words::list(out, lower_marks, n_lower_marks)?;
    words::text(out, b" hasup")?;
    words::list(out, upper_marks, n_upper_marks)?;
    words::text(out, b" rhs")?;
    words::list(out, rhs, n_rights)?;
    words::text(out, b" ops")?;
    words::list(out, ops, n_ops)?;
    words::text(out, b" amount")?;
    words::list(out, amounts, n_amounts)?;
    words::text(out, b" mult")?;
    words::list(out, mults, n_mults)?;
    words::end_line(out)
}
