// The factor's part of the test behind 41: docs/RULES-02.md, Ask 9. Each test only reads, and its value is the
// definition's own.
#![tactic(auto)]

ghost use Rattle.std.specs.Prelude.{◌≡◌, true, not, ◌||◌, [], ◌<◌, ◌≤◌, eqb, length};
ghost use Rattle.doubles.specs.Limits.{max_rows, max_tri_entries};
ghost use Rattle.lu_factor_rules.specs.Factor.{matrix};
ghost use Rattle.lu_factor_rules.specs.Packed.{all_factor_numbers, all_factor_coeffs};
ghost use Rattle.fix_rules.specs.Kept.{order_fine, triangle_fine, diagonal_fine, factor_fine, factor_finite};

// Whether the pivot rows and the pivot numbers of m rows are each other's inverse.
fn order_fine(m: usize, order: &[usize], number: &[usize]) -> bool
    requires { (m ≤ length order.now) × (m ≤ length number.now) }
    ensures { result ≡ order_fine m order.now number.now }
{
    if !state_maps::all_lead_back(m, number, 0, m, order) {
        return false;
    }
    state_maps::all_below(m, m, number)
}

// Whether a triangle's starts and rows are in order; its numbers aren't looked at here.
fn triangle_fine(lower: bool, m: usize, starts: &[usize], rows: &[usize]) -> bool
    requires { (m ≤ max_rows) × (m < length starts.now) × (max_tri_entries ≤ length rows.now) }
    ensures { result ≡ triangle_fine lower m (matrix starts.now rows.now []) }
{
    let entries = starts[m];
    if !lu_gate::starts_ok(m, entries, starts) {
        return false;
    }
    if doubles::MAX_TRI_ENTRIES < entries {
        return false;
    }
    lu_gate::rows_ok(lower, m, starts, rows)
}

// Whether no number of the diagonal is under EPS in size. A NaN isn't, and is refused as a number.
fn diagonal_fine(m: usize, diag: &[f64]) -> bool
    requires { m ≤ length diag.now }
    ensures { result ≡ diagonal_fine m diag.now }
{
    diag[..m].iter().all(|&x| !doubles::under_eps(x))
}

// The four parts, where they stand in the two arrays.
fn factor_fine(m: usize, numbers: &[usize], coeffs: &[f64]) -> bool
    requires { (m ≤ max_rows) × (all_factor_numbers ≤ length numbers.now) × (all_factor_coeffs ≤ length coeffs.now) }
    ensures { result ≡ factor_fine m numbers.now coeffs.now }
{
    if !order_fine(
        m,
        &numbers[lu_factor_rules::ORDER..lu_factor_rules::ORDER_END],
        &numbers[lu_factor_rules::NUMBER..lu_factor_rules::NUMBER_END],
    ) {
        return false;
    }
    if !triangle_fine(
        true,
        m,
        &numbers[lu_factor_rules::L_STARTS..lu_factor_rules::L_STARTS_END],
        &numbers[lu_factor_rules::L_ROWS..lu_factor_rules::L_ROWS_END],
    ) {
        return false;
    }
    if !triangle_fine(
        false,
        m,
        &numbers[lu_factor_rules::U_STARTS..lu_factor_rules::U_STARTS_END],
        &numbers[lu_factor_rules::U_ROWS..lu_factor_rules::U_ROWS_END],
    ) {
        return false;
    }
    diagonal_fine(m, &coeffs[lu_factor_rules::DIAG..lu_factor_rules::DIAG_END])
}

// Whether the numbers of L, of U and of the diagonal are finite, up to the last starts.
fn factor_finite(m: usize, numbers: &[usize], coeffs: &[f64]) -> bool
    requires { (m ≤ max_rows) × (all_factor_numbers ≤ length numbers.now) × (all_factor_coeffs ≤ length coeffs.now) ×
        (factor_fine m numbers.now coeffs.now ≡ true) }
    ensures { result ≡ factor_finite m numbers.now coeffs.now }
{
    let lower = numbers[lu_factor_rules::L_STARTS + m];
    if !lu_gate::all_finite(
        &coeffs[lu_factor_rules::L_COEFFS..lu_factor_rules::L_COEFFS_END],
        lower,
    ) {
        return false;
    }
    let upper = numbers[lu_factor_rules::U_STARTS + m];
    if !lu_gate::all_finite(
        &coeffs[lu_factor_rules::U_COEFFS..lu_factor_rules::U_COEFFS_END],
        upper,
    ) {
        return false;
    }
    lu_gate::all_finite(&coeffs[lu_factor_rules::DIAG..lu_factor_rules::DIAG_END], m)
}

// The two are asked where there is a factor: where the factor cell is 1.
pub fn kept_fine(cell: usize, m: usize, numbers: &[usize], coeffs: &[f64]) -> bool
    requires { (m ≤ max_rows) × (all_factor_numbers ≤ length numbers.now) × (all_factor_coeffs ≤ length coeffs.now) }
    ensures { result ≡ not (eqb cell 1) || factor_fine m numbers.now coeffs.now }
{
    if cell != 1 {
        return true;
    }
    factor_fine(m, numbers, coeffs)
}

pub fn kept_finite(cell: usize, m: usize, numbers: &[usize], coeffs: &[f64]) -> bool
    requires { (m ≤ max_rows) × (all_factor_numbers ≤ length numbers.now) × (all_factor_coeffs ≤ length coeffs.now) ×
        (not (eqb cell 1) || factor_fine m numbers.now coeffs.now ≡ true) }
    ensures { result ≡ not (eqb cell 1) || factor_finite m numbers.now coeffs.now }
{
    if cell != 1 {
        return true;
    }
    factor_finite(m, numbers, coeffs)
}
