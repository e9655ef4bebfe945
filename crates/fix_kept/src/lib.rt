// The test behind 41: whether the memory is that of an Optimal run over this plan. docs/RULES-02.md, Ask 9, has the
// parts, and they are asked in its order, so that a later one can lean on those before it. Nothing is written.
#![tactic(auto)]

ghost use Rattle.std.specs.Prelude.{◌≡◌, true, not, ◌||◌, [], ◌<◌, ◌≤◌, eqb, length};
ghost use Rattle.doubles.specs.Num.{f0};
ghost use Rattle.doubles.specs.Limits.{max_rows, max_columns, eta_columns, eta_entries};
ghost use Rattle.doubles.specs.Lists.{◌!◌};
ghost use Rattle.lu_factor_rules.specs.Packed.{all_factor_numbers, all_factor_coeffs};
ghost use Rattle.rules.specs.Parts.{plan_of, etas_of};
ghost use Rattle.state.specs.Packed.{packed, objective_at};
ghost use Rattle.state.specs.Memory.{memory_in, numbers_end, doubles_end};
ghost use Rattle.fix_rules.specs.Kept.{known_flags, flags_fine, store_fine, factor_fine, workspace_finite, passes41};
ghost use Rattle.fix_kept.specs.Rest.{numbers_fine, rest_fine};

// Whether a flags cell is one that a call leaves: 0 to 3, or 7 for a fixed column.
fn known_flags(x: usize) -> bool
    ensures { result ≡ known_flags x }
{
    if x <= 3 {
        return true;
    }
    x == 7
}

fn flags_fine(n: usize, flags: &[usize]) -> bool
    requires { n ≤ length flags.now }
    ensures { result ≡ flags_fine n flags.now }
{
    flags[..n].iter().all(|&x| known_flags(x))
}

// Whether the eta store of m rows, with so many columns and entries, keeps to its limits.
fn store_fine(
    m: usize,
    count: usize,
    entries: usize,
    leaving: &[usize],
    starts: &[usize],
    rows: &[usize],
) -> bool
    requires { (eta_columns ≤ length leaving.now) × (eta_columns < length starts.now) ×
        (eta_entries ≤ length rows.now) }
    ensures { result ≡ store_fine m (etas_of leaving.now starts.now rows.now []) count
        entries }
{
    if doubles::ETA_COLUMNS < count {
        return false;
    }
    if !lu_gate::starts_ok(count, entries, starts) {
        return false;
    }
    if doubles::ETA_ENTRIES < entries {
        return false;
    }
    if !state_maps::all_below(m, count, leaving) {
        return false;
    }
    state_maps::all_below(m, entries, rows)
}

// Whether the workspace's numbers in use are finite.
fn workspace_finite(n: usize, m: usize, entries: usize, doubles: &[f64]) -> bool
    requires { (n ≤ max_columns) × (m ≤ max_rows) × (entries ≤ eta_entries) × (doubles_end ≤ length doubles.now) }
    ensures { result ≡ workspace_finite n m entries (packed [] doubles.now) }
{
    if !lu_gate::all_finite(
        &doubles[state::BASIC_VAR_VALS..state::BASIC_VAR_VALS_END],
        m,
    ) {
        return false;
    }
    if !lu_gate::all_finite(&doubles[state::NB_VAR_VALS..state::NB_VAR_VALS_END], n) {
        return false;
    }
    if !lu_gate::all_finite(&doubles[state::PRICES..state::PRICES_END], n) {
        return false;
    }
    if !lu_gate::all_finite(&doubles[state::NORMS..state::NORMS_END], n) {
        return false;
    }
    if !lu_gate::all_finite(&doubles[state::DUAL_NORMS..state::DUAL_NORMS_END], m) {
        return false;
    }
    lu_gate::all_finite(&doubles[state::ETA_COEFFS..state::ETA_COEFFS_END], entries)
}

// Whether all numbers in use are finite. `cell` is the counts' cell that says whether there is a factor.
fn numbers_fine(
    n: usize,
    m: usize,
    entries: usize,
    cell: usize,
    doubles: &[f64],
    factor_numbers: &[usize],
    factor_coeffs: &[f64],
) -> bool
    requires n_le_max_columns { (n ≤ max_columns) × (m ≤ max_rows) × (entries ≤ eta_entries) × (doubles_end ≤ length doubles.now) }
    requires factor_numbers_in_bounds { (all_factor_numbers ≤ length factor_numbers.now) × (all_factor_coeffs ≤ length factor_coeffs.now) ×
        (not (eqb cell 1) || factor_fine m factor_numbers.now factor_coeffs.now ≡ true) }
    ensures { result ≡ numbers_fine n m entries cell (packed [] doubles.now)
        factor_numbers.now factor_coeffs.now (doubles.now ! objective_at) }
{
    if !workspace_finite(n, m, entries, doubles) {
        return false;
    }
    if !fix_kept_factor::kept_finite(cell, m, factor_numbers, factor_coeffs) {
        return false;
    }
    doubles::is_finite(doubles[state::OBJECTIVE])
}

// What is asked of n columns and m kept rows: the plan itself isn't needed any more.
fn rest_fine(
    n: usize,
    m: usize,
    numbers: &[usize],
    doubles: &[f64],
    factor_numbers: &[usize],
    factor_coeffs: &[f64],
) -> bool
    requires { (n ≤ max_columns) × (m ≤ max_rows) × (numbers_end ≤ length numbers.now) ×
        (doubles_end ≤ length doubles.now) × (all_factor_numbers ≤ length factor_numbers.now) ×
        (all_factor_coeffs ≤ length factor_coeffs.now) }
    ensures { result ≡ rest_fine n m (memory_in [] numbers.now doubles.now
        factor_numbers.now factor_coeffs.now) }
{
    let counts = &numbers[state::COUNTS..state::COUNTS_END];
    let entries = counts[2];
    let cell = counts[5];
    if !flags_fine(n, &numbers[state::FLAGS..state::FLAGS_END]) {
        return false;
    }
    if !store_fine(
        m,
        counts[1],
        entries,
        &numbers[state::ETA_LEAVING..state::ETA_LEAVING_END],
        &numbers[state::ETA_STARTS..state::ETA_STARTS_END],
        &numbers[state::ETA_ROWS..state::ETA_ROWS_END],
    ) {
        return false;
    }
    if !fix_kept_factor::kept_fine(cell, m, factor_numbers, factor_coeffs) {
        return false;
    }
    if 1 < cell {
        return false;
    }
    numbers_fine(n, m, entries, cell, doubles, factor_numbers, factor_coeffs)
}

// The whole test. Of the plan its sizes and starts are read.
pub fn passes_41(
    columns: usize,
    rows: usize,
    starts: &[usize],
    numbers: &[usize],
    doubles: &[f64],
    factor_numbers: &[usize],
    factor_coeffs: &[f64],
) -> bool
    requires { (columns ≤ max_columns) × (rows ≤ max_rows) × (rows < length starts.now) ×
        (numbers_end ≤ length numbers.now) × (doubles_end ≤ length doubles.now) ×
        (all_factor_numbers ≤ length factor_numbers.now) × (all_factor_coeffs ≤ length factor_coeffs.now) }
    ensures { result ≡ passes41 (plan_of columns rows 0 0 f0 [] [] [] starts.now [] [] [] [])
        (memory_in [] numbers.now doubles.now factor_numbers.now
        factor_coeffs.now) }
{
    let counts = &numbers[state::COUNTS..state::COUNTS_END];
    if counts[4] != 0 {
        return false;
    }
    if !state_maps::maps_fine(columns, rows, starts, numbers) {
        return false;
    }
    rest_fine(
        columns,
        counts[0],
        numbers,
        doubles,
        factor_numbers,
        factor_coeffs,
    )
}
