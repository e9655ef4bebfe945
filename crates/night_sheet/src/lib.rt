// A stage's audit over arrays of its own: propose, open, judge. Its section is written exactly where the sheet is
// opened (02, Ask 14).
#![tactic(auto)]

ghost use Rattle.std.specs.Prelude.{◌≡◌, [], ◌≤◌, length};
ghost use Rattle.lu_packed.specs.Written.{written};
ghost use Rattle.sheet_rules.specs.Sheet.{plan_of};
ghost use Rattle.whole_propose.specs.Propose.{lent_of};
ghost use Rattle.doubles.specs.Limits.{max_rows, max_columns};
ghost use Rattle.night_rules.specs.Stage.{zeros, sheet_with, section_of, section_cells};
ghost use Rattle.night_sheet.specs.Audited.{audited, judged, audit_by, cells_of};

// A sheet's own numbers, array by array.
fn write_section(
    amounts: &[i64; doubles::MAX_COLUMNS],
    mults: &[i64; doubles::MAX_ROWS],
    r: &[i64; doubles::MAX_ROWS],
    d: &[i64; doubles::MAX_COLUMNS],
    c: &[i64; 1],
    b: &[i64; 1],
    counts: &[i64; 4],
    section: &mut [i64],
)
    requires { section_cells ≤ length section.old }
    ensures { section.new ≡ written 0 (section_of (cells_of amounts.now mults.now
        r.now d.now c.now b.now counts.now))
        section.old }
{
    lu_packed::put(amounts, 0, section);
    lu_packed::put(mults, night_rules::AMOUNTS_END, section);
    lu_packed::put(r, night_rules::MULTS_END, section);
    lu_packed::put(d, night_rules::R_END, section);
    lu_packed::put(c, night_rules::D_END, section);
    lu_packed::put(b, night_rules::C_END, section);
    lu_packed::put(counts, night_rules::B_END, section);
}

// The sheet with the proposed numbers, opened and judged.
fn judge(
    rows: usize,
    columns: usize,
    coefs: &[i64],
    costs: &[i64],
    lowers: &[i64],
    uppers: &[i64],
    lower_marks: &[u8],
    upper_marks: &[u8],
    rhs: &[i64],
    ops: &[u8],
    amounts: &[i64; doubles::MAX_COLUMNS],
    mults: &[i64; doubles::MAX_ROWS],
    section: &mut [i64],
) -> night_rules::Audit
    requires { section_cells ≤ length section.old }
    ensures { audited result section.new ≡ judged (sheet_with (plan_of rows columns coefs.now
        costs.now lowers.now uppers.now lower_marks.now
        upper_marks.now rhs.now ops.now [] []) amounts.now
        mults.now) section.old }
{
    let mut r = [0i64; doubles::MAX_ROWS];
    let mut d = [0i64; doubles::MAX_COLUMNS];
    let mut c = [0i64; 1];
    let mut b = [0i64; 1];
    let mut counts = [0i64; 4];
    let refusal = sheet::open(
        rows,
        columns,
        coefs,
        costs,
        lowers,
        uppers,
        lower_marks,
        upper_marks,
        rhs,
        ops,
        amounts,
        mults,
        &mut r,
        &mut d,
        &mut c,
        &mut b,
        &mut counts,
    );
    if refusal != 0 {
        return night_rules::Audit::NotOpened(refusal);
    }
    write_section(amounts, mults, &r, &d, &c, &b, &counts, section);
    night_rules::Audit::Judged(sheet_verdict::verdict(
        rows,
        columns,
        coefs,
        costs,
        lowers,
        uppers,
        lower_marks,
        upper_marks,
        rhs,
        ops,
        amounts,
        mults,
        &r,
        &d,
        &c,
        &b,
        &counts,
    ))
}

// The audit of a run that gave 0.
pub fn audit(
    rows: usize,
    columns: usize,
    coefs: &[i64],
    costs: &[i64],
    lowers: &[i64],
    uppers: &[i64],
    lower_marks: &[u8],
    upper_marks: &[u8],
    rhs: &[i64],
    ops: &[u8],
    starts: &[usize],
    values: &[f64],
    numbers: &[usize],
    doubles: &[f64],
    section: &mut [i64],
) -> night_rules::Audit
    requires { section_cells ≤ length section.old }
    ensures { audited result section.new ≡ audit_by (plan_of rows columns coefs.now
        costs.now lowers.now uppers.now lower_marks.now
        upper_marks.now rhs.now ops.now [] []) (lent_of columns rows
        starts.now ops.now values.now numbers.now doubles.now
        (zeros max_columns) (zeros max_rows)) section.old }
{
    let mut amounts = [0i64; doubles::MAX_COLUMNS];
    let mut mults = [0i64; doubles::MAX_ROWS];
    let p = whole_propose::propose(
        columns,
        rows,
        starts,
        ops,
        values,
        numbers,
        doubles,
        &mut amounts,
        &mut mults,
    );
    if let whole_propose::Proposal::Proposed = p {
        return judge(
            rows,
            columns,
            coefs,
            costs,
            lowers,
            uppers,
            lower_marks,
            upper_marks,
            rhs,
            ops,
            &amounts,
            &mults,
            section,
        );
    }
    night_rules::Audit::NotWhole(p)
}
