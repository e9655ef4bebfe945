// What a call over a memory that was kept refuses, before the first lent cell is written.
#![tactic(auto)]

ghost use Rattle.std.specs.Prelude.{◌≡◌, List, [], ◌<◌, ◌≤◌, length, Float};
ghost use Rattle.doubles.specs.Num.{f0};
ghost use Rattle.doubles.specs.Limits.{max_columns};
ghost use Rattle.rules.specs.Parts.{plan_of, problem};
ghost use Rattle.state.specs.Packed.{packed};
ghost use Rattle.state.specs.Memory.{memory_in, numbers_end};
ghost use Rattle.fix_rules.specs.Fix.{is_fixed};
ghost use Rattle.fix_rules.specs.Calls.{passes43};
ghost use Rattle.fix_gate.specs.Gate.{kept_refusal, call_refusal, fix_refusal, unfix_refusal};

// 1 to 5 and 41, of every call over a memory that was kept. Any sizes and any arrays.
pub fn kept_refusal(
    columns: usize,
    rows: usize,
    entries: usize,
    budget: usize,
    tolerance: f64,
    costs: &[f64],
    lowers: &[f64],
    uppers: &[f64],
    starts: &[usize],
    cols: &[usize],
    coeffs: &[f64],
    ops: &[u8],
    rhs: &[f64],
    values: &[f64],
    numbers: &[usize],
    doubles: &[f64],
    factor_numbers: &[usize],
    factor_coeffs: &[f64],
) -> Option<fix_rules::FixAnswer>
    ensures { result ≡ kept_refusal
        (plan_of columns rows entries budget tolerance costs.now lowers.now
        uppers.now starts.now cols.now coeffs.now ops.now
        rhs.now) (memory_in values.now numbers.now doubles.now
        factor_numbers.now factor_coeffs.now) }
{
    let refusal = start_gate::refusal(
        columns,
        rows,
        entries,
        budget,
        tolerance,
        costs,
        lowers,
        uppers,
        starts,
        cols,
        coeffs,
        ops,
        rhs,
        values,
        numbers,
        doubles,
        factor_numbers,
        factor_coeffs,
    );
    if let Some(answer) = refusal {
        return Some(fix_rules::FixAnswer::Told(answer));
    }
    if !fix_kept::passes_41(
        columns,
        rows,
        starts,
        numbers,
        doubles,
        factor_numbers,
        factor_coeffs,
    ) {
        return Some(fix_rules::FixAnswer::NotKept);
    }
    None
}

// And 42, of a call that names a column.
fn call_refusal(
    columns: usize,
    rows: usize,
    entries: usize,
    budget: usize,
    tolerance: f64,
    costs: &[f64],
    lowers: &[f64],
    uppers: &[f64],
    starts: &[usize],
    cols: &[usize],
    coeffs: &[f64],
    ops: &[u8],
    rhs: &[f64],
    values: &[f64],
    numbers: &[usize],
    doubles: &[f64],
    factor_numbers: &[usize],
    factor_coeffs: &[f64],
    column: usize,
) -> Option<fix_rules::FixAnswer>
    ensures { result ≡ call_refusal
        (plan_of columns rows entries budget tolerance costs.now lowers.now
        uppers.now starts.now cols.now coeffs.now ops.now
        rhs.now) (memory_in values.now numbers.now doubles.now
        factor_numbers.now factor_coeffs.now) column }
{
    let refusal = kept_refusal(
        columns,
        rows,
        entries,
        budget,
        tolerance,
        costs,
        lowers,
        uppers,
        starts,
        cols,
        coeffs,
        ops,
        rhs,
        values,
        numbers,
        doubles,
        factor_numbers,
        factor_coeffs,
    );
    if let Some(answer) = refusal {
        return Some(answer);
    }
    if column >= columns {
        return Some(fix_rules::FixAnswer::BadColumn);
    }
    None
}

// 43: "the value isn't finite, or is below the column's lower bound, or above its upper one".
fn value_inside(lowers: &[f64], uppers: &[f64], column: usize, value: f64) -> bool
    requires { (column < length lowers.now) × (column < length uppers.now) }
    ensures { result ≡ passes43 (plan_of 0 0 0 0 f0 [] lowers.now uppers.now [] [] [] [] [])
        column value }
{
    if !doubles::is_finite(value) {
        return false;
    }
    if value < lowers[column] {
        return false;
    }
    !(uppers[column] < value)
}

// 44 isn't given: the column is non-basic, and marked.
fn is_fixed(columns: usize, numbers: &[usize], column: usize) -> bool
    requires { (columns ≤ max_columns) × (column < columns) × (numbers_end ≤ length numbers.now) }
    ensures { (D : List Float) → result ≡ is_fixed
        (problem (plan_of columns 0 0 0 f0 [] [] [] [] [] [] [] []) []) (packed numbers.now D) column }
{
    let standing = cells::var_state(columns, numbers[state::VAR_STATES + column]);
    match standing {
        rules::VarState::Basic(_) => {
            return false;
        }
        rules::VarState::NonBasic(col) => {
            let flags = cells::read_flags(numbers[state::FLAGS + col]);
            return flags.fixed;
        }
    }
}

pub fn fix_refusal(
    columns: usize,
    rows: usize,
    entries: usize,
    budget: usize,
    tolerance: f64,
    costs: &[f64],
    lowers: &[f64],
    uppers: &[f64],
    starts: &[usize],
    cols: &[usize],
    coeffs: &[f64],
    ops: &[u8],
    rhs: &[f64],
    values: &[f64],
    numbers: &[usize],
    doubles: &[f64],
    factor_numbers: &[usize],
    factor_coeffs: &[f64],
    column: usize,
    value: f64,
) -> Option<fix_rules::FixAnswer>
    ensures { result ≡ fix_refusal
        (plan_of columns rows entries budget tolerance costs.now lowers.now
        uppers.now starts.now cols.now coeffs.now ops.now
        rhs.now) (memory_in values.now numbers.now doubles.now
        factor_numbers.now factor_coeffs.now) column value }
{
    let refusal = call_refusal(
        columns,
        rows,
        entries,
        budget,
        tolerance,
        costs,
        lowers,
        uppers,
        starts,
        cols,
        coeffs,
        ops,
        rhs,
        values,
        numbers,
        doubles,
        factor_numbers,
        factor_coeffs,
        column,
    );
    if let Some(answer) = refusal {
        return Some(answer);
    }
    if !value_inside(lowers, uppers, column, value) {
        return Some(fix_rules::FixAnswer::BadValue);
    }
    None
}

pub fn unfix_refusal(
    columns: usize,
    rows: usize,
    entries: usize,
    budget: usize,
    tolerance: f64,
    costs: &[f64],
    lowers: &[f64],
    uppers: &[f64],
    starts: &[usize],
    cols: &[usize],
    coeffs: &[f64],
    ops: &[u8],
    rhs: &[f64],
    values: &[f64],
    numbers: &[usize],
    doubles: &[f64],
    factor_numbers: &[usize],
    factor_coeffs: &[f64],
    column: usize,
) -> Option<fix_rules::FixAnswer>
    ensures { result ≡ unfix_refusal
        (plan_of columns rows entries budget tolerance costs.now lowers.now
        uppers.now starts.now cols.now coeffs.now ops.now
        rhs.now) (memory_in values.now numbers.now doubles.now
        factor_numbers.now factor_coeffs.now) column }
{
    let refusal = call_refusal(
        columns,
        rows,
        entries,
        budget,
        tolerance,
        costs,
        lowers,
        uppers,
        starts,
        cols,
        coeffs,
        ops,
        rhs,
        values,
        numbers,
        doubles,
        factor_numbers,
        factor_coeffs,
        column,
    );
    if let Some(answer) = refusal {
        return Some(answer);
    }
    if !is_fixed(columns, numbers, column) {
        return Some(fix_rules::FixAnswer::NotFixed);
    }
    None
}
