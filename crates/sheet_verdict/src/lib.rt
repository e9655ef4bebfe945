// The audit sheet's public verdict. It asks nothing, and reads only.
#![tactic(auto)]

ghost use Rattle.std.specs.Prelude.{◌≡◌, [], ◌≤◌, length};
ghost use Rattle.sheet_rules.specs.Sheet.{plan_of, kept_of, sheet_of};
ghost use Rattle.sheet_rules.specs.Verdict.{none_exists};
ghost use Rattle.sheet_rules.specs.Promises.{Judges};

use sheet_rules::Verdict;
use sheet_terms::is_zero;

// 02: "with all costs 0, right signs, no absent bound needed and B above 0".
fn none_exists(columns: usize, costs: &[i64], b: &[i64], counts: &[i64]) -> bool
    requires { (columns ≤ length costs.now) × (1 ≤ length b.now) × (4 ≤ length counts.now) }
    ensures { result ≡ none_exists columns costs.now
        (kept_of [] [] [] b.now counts.now) }
{
    if is_zero(counts[2]) & is_zero(counts[3]) & (0 < b[0]) {
        return sheet_tests::all_within(0, columns, costs);
    }
    false
}

// The verdict of a sheet. It reads only.
pub fn verdict(
    rows: usize,
    columns: usize,
    coefs: &[i64],
    costs: &[i64],
    lowers: &[i64],
    uppers: &[i64],
    lower_marks: &[u8],
    upper_marks: &[u8],
    rhs: &[i64],
    ops: &[u8],
    amounts: &[i64],
    mults: &[i64],
    r: &[i64],
    d: &[i64],
    c: &[i64],
    b: &[i64],
    counts: &[i64],
) -> Verdict
    ensures { Judges (sheet_of (plan_of rows columns coefs.now costs.now
        lowers.now uppers.now lower_marks.now upper_marks.now
        rhs.now ops.now amounts.now mults.now)
        (kept_of r.now d.now c.now b.now counts.now)) result }
{
    if !sheet_tests::sizes_fine(
        rows,
        columns,
        coefs,
        costs,
        lowers,
        uppers,
        lower_marks,
        upper_marks,
        rhs,
        ops,
        amounts,
        mults,
        r,
        d,
        c,
        b,
        counts,
    ) {
        return Verdict::Refused(11);
    }
    if !sheet_tests::kept_fine(rows, columns, r, d, c, b, counts) {
        return Verdict::Refused(14);
    }
    if none_exists(columns, costs, b, counts) {
        return Verdict::NoneExists;
    }
    if !(is_zero(counts[0]) & is_zero(counts[1])) {
        return Verdict::NotPlan;
    }
    if !(is_zero(counts[2]) & is_zero(counts[3])) {
        return Verdict::NoFloor;
    }
    Verdict::Gap(doubles::UNIT * c[0] - b[0])
}
