// A sheet's plan handed to the solver. 02, Ask 14: "as the same numbers in doubles, absent bounds infinite and zero
// coefficients left out". The caller lends zeroed arrays of the limits' sizes.
#![tactic(auto)]

ghost use Rattle.std.specs.Prelude.{◌≡◌, ◌+◌, ◌*◌, ◌≤◌, [], length};
ghost use Rattle.doubles.specs.Num.{f0};
ghost use Rattle.doubles.specs.Limits.{max_rows, max_entries};
ghost use Rattle.doubles.specs.Lists.{◌#◌, over};
ghost use Rattle.doubles.specs.Loop.{table};
ghost use Rattle.sheet_rules.specs.Sum.{◌‼◌};
ghost use Rattle.sheet_rules.specs.Sheet.{plan_of};
ghost use Rattle.night_rules.specs.Doubles.{as_double, bound_or, nonzeros, start_at, entries_to, entry_count, doubles_plan};
ghost use Rattle.night_doubles.specs.Laid.{cells_of, Blank, Laid, RowLaid};
ghost use Rattle.night_doubles.specs.Converted.{Converts, Zeroed, Long, converted};

// How many coefficients of a row aren't 0.
fn row_entries(row: &[i64]) -> usize
    ensures { result ≡ nonzeros (λ j. row.now ‼ j) (length row.now) }
{
    let mut k = 0;
    for &z in row {
        if !sheet_terms::is_zero(z) {
            k += 1;
        }
    }
    k
}

// And of all rows: the solver's entries.
pub fn entries(rows: usize, columns: usize, coefs: &[i64]) -> usize
    requires { rows * columns ≤ length coefs.now }
    ensures { result ≡ entry_count (cells_of rows columns coefs.now) }
{
    let mut k = 0;
    for i in 0..rows {
        let base = i * columns;
        let end = base + columns;
        k += row_entries(&coefs[base..end]);
    }
    k
}

// A row's coefficients that aren't 0 go behind the first `at` entries. How many there are then.
fn lay_row(
    row: &[i64],
    at: usize,
    cols: &mut [usize; doubles::MAX_ENTRIES],
    coeffs: &mut [f64; doubles::MAX_ENTRIES],
) -> usize
    requires { at + nonzeros (λ j. row.now ‼ j) (length row.now) ≤ max_entries }
    ensures { RowLaid (λ j. row.now ‼ j) at cols.old coeffs.old
        (length row.now) result cols.new coeffs.new }
{
    let mut k = at;
    for (j, &z) in row.iter().enumerate() {
        if !sheet_terms::is_zero(z) {
            cols[k] = j;
            coeffs[k] = std::num::nearest_i64_to_f64(z);
            k += 1;
        }
    }
    k
}

// The rows, one behind the other, and where each starts.
fn lay_rows(
    rows: usize,
    columns: usize,
    coefs: &[i64],
    starts: &mut [usize; doubles::MAX_ROWS + 1],
    cols: &mut [usize; doubles::MAX_ENTRIES],
    coeffs: &mut [f64; doubles::MAX_ENTRIES],
)
    requires rows_le_max_rows { (rows ≤ max_rows) × (rows * columns ≤ length coefs.now) ×
        (entry_count (cells_of rows columns coefs.now) ≤ max_entries) }
    requires starts_len { (length starts.old ≡ max_rows + 1) × Blank cols.old coeffs.old }
    ensures { (starts.new ≡ over (table (rows + 1) (start_at (cells_of rows columns
        coefs.now))) starts.old) × Laid
        (entries_to (cells_of rows columns coefs.now) rows)
        (entry_count (cells_of rows columns coefs.now)) cols.new coeffs.new }
{
    let mut at = 0;
    for i in 0..rows {
        starts[i] = at;
        let base = i * columns;
        let end = base + columns;
        at = lay_row(&coefs[base..end], at, cols, coeffs);
    }
    starts[rows] = at;
}

// Costs and right sides.
fn numbers(n: usize, xs: &[i64], out: &mut [f64])
    requires { (n ≤ length xs.now) × (n ≤ length out.old) }
    ensures { out.new ≡ over (table n (λ j. as_double (xs.now ‼ j))) out.old }
{
    for j in 0..n {
        out[j] = std::num::nearest_i64_to_f64(xs[j]);
    }
}

// A bound, or what stands for an absent one.
fn bound_or(absent: f64, mark: u8, z: i64) -> f64
    ensures { result ≡ bound_or absent mark z }
{
    if mark == 1 {
        return std::num::nearest_i64_to_f64(z);
    }
    absent
}

fn bounds(n: usize, absent: f64, marks: &[u8], xs: &[i64], out: &mut [f64])
    requires { (n ≤ length marks.now) × (n ≤ length xs.now) × (n ≤ length out.old) }
    ensures { out.new ≡ over (table n (λ j. bound_or absent (marks.now # j)
        (xs.now ‼ j))) out.old }
{
    for j in 0..n {
        out[j] = bound_or(absent, marks[j], xs[j]);
    }
}

// The whole plan, where its entries fit.
pub fn convert(
    rows: usize,
    columns: usize,
    coefs: &[i64],
    costs: &[i64],
    lowers: &[i64],
    uppers: &[i64],
    lower_marks: &[u8],
    upper_marks: &[u8],
    rhs: &[i64],
    plan_costs: &mut [f64; doubles::MAX_COLUMNS],
    plan_lowers: &mut [f64; doubles::MAX_COLUMNS],
    plan_uppers: &mut [f64; doubles::MAX_COLUMNS],
    starts: &mut [usize; doubles::MAX_ROWS + 1],
    cols: &mut [usize; doubles::MAX_ENTRIES],
    coeffs: &mut [f64; doubles::MAX_ENTRIES],
    plan_rhs: &mut [f64; doubles::MAX_ROWS],
)
    requires converts { Converts (plan_of rows columns coefs.now costs.now lowers.now uppers.now lower_marks.now
        upper_marks.now rhs.now [] [] []) }
    requires zeroed { Zeroed plan_costs.old plan_lowers.old plan_uppers.old starts.old cols.old coeffs.old
        plan_rhs.old }
    ensures plan_rhs_after { converted columns rows (entry_count (cells_of rows columns coefs.now))
        plan_costs.new plan_lowers.new plan_uppers.new starts.new
        cols.new coeffs.new plan_rhs.new ≡ doubles_plan 0 f0
        (plan_of rows columns coefs.now costs.now lowers.now uppers.now
        lower_marks.now upper_marks.now rhs.now [] [] []) }
    ensures long { Long plan_costs.new plan_lowers.new plan_uppers.new
        cols.new coeffs.new plan_rhs.new }
{
    numbers(columns, costs, plan_costs);
    bounds(
        columns,
        -doubles::infinity(),
        lower_marks,
        lowers,
        plan_lowers,
    );
    bounds(
        columns,
        doubles::infinity(),
        upper_marks,
        uppers,
        plan_uppers,
    );
    lay_rows(rows, columns, coefs, starts, cols, coeffs);
    numbers(rows, rhs, plan_rhs);
}
