// Opening an audit sheet: its refusals, and its kept numbers worked out afresh.
#![tactic(auto)]

ghost use Rattle.std.specs.Prelude.{◌≡◌, [], ◌∷◌, ◌+◌, ◌*◌, ◌≤◌, length, pos, nat_abs, ◌-ℤ◌, ◌*ℤ◌};
ghost use Rattle.doubles.specs.Limits.{max_rows, max_columns, max_coefficient, max_cost, max_amount, max_multiplier, max_d, unit};
ghost use Rattle.doubles.specs.Lists.{over};
ghost use Rattle.doubles.specs.Loop.{table};
ghost use Rattle.sheet_rules.specs.Sum.{◌‼◌, dot};
ghost use Rattle.sheet_rules.specs.Sheet.{plan_of, kept_of, sheet_of, fresh, over_kept, cost, x};
ghost use Rattle.sheet_open.specs.At.{floor_at, counts_at};
ghost use Rattle.sheet_tests.specs.Sized.{PlanSized, Fine};
ghost use Rattle.sheet_rules.specs.Opening.{opening};
ghost use Rattle.sheet_terms.specs.Small.{Small};
ghost use Rattle.sheet_rules.specs.Words.{Sized, Limits};

// R of every row.
fn write_activities(rows: usize, columns: usize, coefs: &[i64], amounts: &[i64], r: &mut [i64])
    requires { (columns ≤ max_columns) × Small max_coefficient (rows * columns) coefs.now × Small max_amount columns
        amounts.now × (rows ≤ length r.old) }
    ensures { r.new ≡ over (table rows
        (λ i. dot columns (λ j. coefs.now ‼ (i * columns + j)) (λ j. amounts.now ‼ j)))
        r.old }
{
    for i in 0..rows {
        let base = i * columns;
        let end = base + columns;
        r[i] = sheet_terms::activity(&coefs[base..end], amounts);
    }
}

// D of every column before a row is taken off.
fn start_prices(columns: usize, costs: &[i64], d: &mut [i64])
    requires { Small max_cost columns costs.now × (columns ≤ length d.old) }
    ensures { d.new ≡ over (table columns (λ j. pos unit *ℤ costs.now ‼ j)) d.old }
{
    for j in 0..columns {
        d[j] = doubles::UNIT * costs[j];
    }
}

// A row's coefficients times its multiplier, taken off every D.
fn take_row(row: &[i64], mult: i64, d: &mut [i64])
    requires { Small max_coefficient (length row.now) row.now × (nat_abs mult ≤ max_multiplier) × Small max_d
        (length row.now) d.old }
    ensures { d.new ≡ over (table (length row.now)
        (λ j. d.old ‼ j -ℤ row.now ‼ j *ℤ mult)) d.old }
{
    for (j, &a) in row.iter().enumerate() {
        d[j] = d[j] - a * mult;
    }
}

// D of every column, row by row.
fn write_prices(
    rows: usize,
    columns: usize,
    coefs: &[i64],
    costs: &[i64],
    mults: &[i64],
    d: &mut [i64],
)
    requires { (rows ≤ max_rows) × Small max_coefficient (rows * columns) coefs.now × Small max_cost columns
        costs.now × Small max_multiplier rows mults.now × (columns ≤ length d.old) }
    ensures { d.new ≡ over (table columns
        (λ j. pos unit *ℤ costs.now ‼ j -ℤ dot rows (λ i. coefs.now ‼ (i * columns + j))
        (λ i. mults.now ‼ i))) d.old }
{
    start_prices(columns, costs, d);
    for (i, &mult) in mults[..rows].iter().enumerate() {
        if !sheet_terms::is_zero(mult) {
            let base = i * columns;
            let end = base + columns;
            take_row(&coefs[base..end], mult, d);
        }
    }
}

// C and B, at the prices d.
fn write_totals(
    rows: usize,
    columns: usize,
    coefs: &[i64],
    costs: &[i64],
    lowers: &[i64],
    uppers: &[i64],
    lower_marks: &[u8],
    upper_marks: &[u8],
    rhs: &[i64],
    ops: &[u8],
    amounts: &[i64],
    mults: &[i64],
    d: &[i64],
    c: &mut [i64],
    b: &mut [i64],
)
    requires { PlanSized (plan_of rows columns coefs.now costs.now lowers.now uppers.now lower_marks.now
        upper_marks.now rhs.now ops.now amounts.now mults.now) × Fine
        (plan_of rows columns coefs.now costs.now lowers.now uppers.now lower_marks.now upper_marks.now
        rhs.now ops.now amounts.now mults.now) × Small max_d columns d.now × (1 ≤ length c.old) ×
        (1 ≤ length b.old) }
    ensures { (c.new ≡ over (cost (plan_of rows columns coefs.now costs.now
        lowers.now uppers.now lower_marks.now upper_marks.now
        rhs.now ops.now amounts.now mults.now)
        (x (plan_of rows columns coefs.now costs.now lowers.now uppers.now
        lower_marks.now upper_marks.now rhs.now ops.now
        amounts.now mults.now)) ∷ []) c.old) ×
        (b.new ≡ over (floor_at (plan_of rows columns coefs.now costs.now
        lowers.now uppers.now lower_marks.now upper_marks.now
        rhs.now ops.now amounts.now mults.now) d.now ∷ [])
        b.old) }
{
    c[0] = sheet_sums::dot(columns, costs, amounts);
    let sides = sheet_sums::dot(rows, mults, rhs);
    b[0] = sides + sheet_sums::column_terms(columns, lowers, uppers, lower_marks, upper_marks, d);
}

// The four counts, at the activities r and the prices d.
fn write_counts(
    rows: usize,
    columns: usize,
    coefs: &[i64],
    costs: &[i64],
    lowers: &[i64],
    uppers: &[i64],
    lower_marks: &[u8],
    upper_marks: &[u8],
    rhs: &[i64],
    ops: &[u8],
    amounts: &[i64],
    mults: &[i64],
    r: &[i64],
    d: &[i64],
    counts: &mut [i64],
)
    requires { PlanSized (plan_of rows columns coefs.now costs.now lowers.now uppers.now lower_marks.now
        upper_marks.now rhs.now ops.now amounts.now mults.now) × (rows ≤ length r.now) ×
        (columns ≤ length d.now) × (4 ≤ length counts.old) }
    ensures { counts.new ≡ over (counts_at
        (plan_of rows columns coefs.now costs.now lowers.now uppers.now
        lower_marks.now upper_marks.now rhs.now ops.now
        amounts.now mults.now) r.now d.now) counts.old }
{
    counts[0] = sheet_sums::broken_rows(rows, rhs, ops, r);
    counts[1] = sheet_sums::outside_amounts(
        columns,
        lowers,
        uppers,
        lower_marks,
        upper_marks,
        amounts,
    );
    counts[2] = sheet_sums::wrong_signs(rows, ops, mults);
    counts[3] = sheet_sums::absent_needed(columns, lower_marks, upper_marks, d);
}

// Every kept number, worked out afresh.
pub fn write_kept(
    rows: usize,
    columns: usize,
    coefs: &[i64],
    costs: &[i64],
    lowers: &[i64],
    uppers: &[i64],
    lower_marks: &[u8],
    upper_marks: &[u8],
    rhs: &[i64],
    ops: &[u8],
    amounts: &[i64],
    mults: &[i64],
    r: &mut [i64],
    d: &mut [i64],
    c: &mut [i64],
    b: &mut [i64],
    counts: &mut [i64],
)
    requires { Sized (sheet_of (plan_of rows columns coefs.now costs.now lowers.now uppers.now
        lower_marks.now upper_marks.now rhs.now ops.now amounts.now mults.now)
        (kept_of r.old d.old c.old b.old counts.old)) × Limits
        (plan_of rows columns coefs.now costs.now lowers.now uppers.now lower_marks.now upper_marks.now
        rhs.now ops.now amounts.now mults.now) }
    ensures { kept_of r.new d.new c.new b.new counts.new ≡
        over_kept (fresh (plan_of rows columns coefs.now costs.now lowers.now
        uppers.now lower_marks.now upper_marks.now rhs.now
        ops.now amounts.now mults.now))
        (kept_of r.old d.old c.old b.old counts.old) }
{
    write_activities(rows, columns, coefs, amounts, r);
    write_prices(rows, columns, coefs, costs, mults, d);
    write_totals(
        rows,
        columns,
        coefs,
        costs,
        lowers,
        uppers,
        lower_marks,
        upper_marks,
        rhs,
        ops,
        amounts,
        mults,
        d,
        c,
        b,
    );
    write_counts(
        rows,
        columns,
        coefs,
        costs,
        lowers,
        uppers,
        lower_marks,
        upper_marks,
        rhs,
        ops,
        amounts,
        mults,
        r,
        d,
        counts,
    );
}

// The number of the refusal, or 0: each test has its own answer, lowest first.
pub fn opening(
    rows: usize,
    columns: usize,
    coefs: &[i64],
    costs: &[i64],
    lowers: &[i64],
    uppers: &[i64],
    lower_marks: &[u8],
    upper_marks: &[u8],
    rhs: &[i64],
    ops: &[u8],
    amounts: &[i64],
    mults: &[i64],
    r: &[i64],
    d: &[i64],
    c: &[i64],
    b: &[i64],
    counts: &[i64],
) -> usize
    ensures { result ≡ opening (sheet_of (plan_of rows columns coefs.now costs.now
        lowers.now uppers.now lower_marks.now upper_marks.now
        rhs.now ops.now amounts.now mults.now)
        (kept_of r.now d.now c.now b.now counts.now)) }
{
    if !sheet_tests::sizes_fine(
        rows,
        columns,
        coefs,
        costs,
        lowers,
        uppers,
        lower_marks,
        upper_marks,
        rhs,
        ops,
        amounts,
        mults,
        r,
        d,
        c,
        b,
        counts,
    ) {
        return 11;
    }
    if !sheet_tests::numbers_fine(
        rows,
        columns,
        coefs,
        costs,
        lowers,
        uppers,
        lower_marks,
        upper_marks,
        rhs,
        ops,
        amounts,
        mults,
    ) {
        return 12;
    }
    if !sheet_tests::uncrossed(
        rows,
        columns,
        coefs,
        costs,
        lowers,
        uppers,
        lower_marks,
        upper_marks,
        rhs,
        ops,
        amounts,
        mults,
    ) {
        return 13;
    }
    0
}
