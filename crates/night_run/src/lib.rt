// The night's public call (02, Ask 14): alarms first, then the rest. It asks nothing: whatever is lent, the answer and
// every lent cell afterwards are settled.
#![tactic(auto)]

ghost use Rattle.std.specs.Prelude.{◌≡◌, [], ◌≤◌};
ghost use Rattle.doubles.specs.Limits.{max_rows, max_columns};
ghost use Rattle.sheet_rules.specs.Sheet.{plan_of};
ghost use Rattle.night_rules.specs.Arrays.{arrays_of};
ghost use Rattle.night_rules.specs.Night.{night_of, sizes_in, plan_long, memory_long, called};
ghost use Rattle.night_rules.specs.Night.{night_plan};

use night_rules::{Audit, NightAnswer, Stage};

fn sizes_in(rows: usize, columns: usize) -> bool
    ensures { result ≡ sizes_in rows columns }
{
    (rows <= doubles::MAX_ROWS) & (columns <= doubles::MAX_COLUMNS)
}

// No array of the plan is too short.
fn plan_long(
    rows: usize,
    columns: usize,
    coefs: &[i64],
    alarm_costs: &[i64],
    report_costs: &[i64],
    lowers: &[i64],
    uppers: &[i64],
    lower_marks: &[u8],
    upper_marks: &[u8],
    rhs: &[i64],
    ops: &[u8],
) -> bool
    requires { (rows ≤ max_rows) × (columns ≤ max_columns) }
    ensures { result ≡ plan_long (plan_of rows columns coefs.now alarm_costs.now
        lowers.now uppers.now lower_marks.now upper_marks.now
        rhs.now ops.now [] []) report_costs.now }
{
    let cells = rows * columns;
    (cells <= coefs.len())
        & (columns <= alarm_costs.len())
        & (columns <= report_costs.len())
        & (columns <= lowers.len())
        & (columns <= uppers.len())
        & (columns <= lower_marks.len())
        & (columns <= upper_marks.len())
        & (rows <= rhs.len())
        & (rows <= ops.len())
}

// Nor any that is written. The second stage has a row more.
fn memory_long(
    rows: usize,
    columns: usize,
    values: &[f64],
    numbers: &[usize],
    doubles: &[f64],
    factor_numbers: &[usize],
    factor_coeffs: &[f64],
    whole: &[i64],
) -> bool
    requires { (rows ≤ max_rows) × (columns ≤ max_columns) }
    ensures { result ≡ memory_long rows columns (arrays_of values.now numbers.now
        doubles.now factor_numbers.now factor_coeffs.now) whole.now }
{
    let count = columns + rows + 1;
    (count <= values.len())
        & (state::NUMBERS <= numbers.len())
        & (state::DOUBLES <= doubles.len())
        & (lu_factor_rules::FACTOR_NUMBERS <= factor_numbers.len())
        & (lu_factor_rules::FACTOR_COEFFS <= factor_coeffs.len())
        & (night_rules::WHOLE <= whole.len())
}

// The whole call.
pub fn night(
    rows: usize,
    columns: usize,
    coefs: &[i64],
    alarm_costs: &[i64],
    report_costs: &[i64],
    lowers: &[i64],
    uppers: &[i64],
    lower_marks: &[u8],
    upper_marks: &[u8],
    rhs: &[i64],
    ops: &[u8],
    budget: usize,
    tolerance: f64,
    values: &mut [f64],
    numbers: &mut [usize],
    doubles: &mut [f64],
    factor_numbers: &mut [usize],
    factor_coeffs: &mut [f64],
    whole: &mut [i64],
) -> NightAnswer
    ensures { called result (arrays_of values.new numbers.new doubles.new
        factor_numbers.new factor_coeffs.new) whole.new ≡ night_plan
        (night_of (plan_of rows columns coefs.now alarm_costs.now lowers.now
        uppers.now lower_marks.now upper_marks.now rhs.now
        ops.now [] []) report_costs.now budget tolerance)
        (arrays_of values.old numbers.old doubles.old
        factor_numbers.old factor_coeffs.old) whole.old }
{
    if !sizes_in(rows, columns) {
        return NightAnswer::NoGap(Stage {
            run: rules::Answer::BadSize,
            audit: Audit::NotRun,
        });
    }
    if !plan_long(
        rows,
        columns,
        coefs,
        alarm_costs,
        report_costs,
        lowers,
        uppers,
        lower_marks,
        upper_marks,
        rhs,
        ops,
    ) {
        return NightAnswer::ShortMemory;
    }
    if !memory_long(
        rows,
        columns,
        values,
        numbers,
        doubles,
        factor_numbers,
        factor_coeffs,
        whole,
    ) {
        return NightAnswer::ShortMemory;
    }
    let first = night_stage::stage(
        rows,
        columns,
        coefs,
        alarm_costs,
        lowers,
        uppers,
        lower_marks,
        upper_marks,
        rhs,
        ops,
        budget,
        tolerance,
        values,
        numbers,
        doubles,
        factor_numbers,
        factor_coeffs,
        whole,
    );
    let found = whole[night_rules::D_END];
    let next = night_second::tests(first, rows, columns, coefs, alarm_costs, found);
    match next {
        Some(answer) => answer,
        None => night_handing::second_part(
            first,
            found,
            rows,
            columns,
            coefs,
            alarm_costs,
            report_costs,
            lowers,
            uppers,
            lower_marks,
            upper_marks,
            rhs,
            ops,
            budget,
            tolerance,
            values,
            numbers,
            doubles,
            factor_numbers,
            factor_coeffs,
            whole,
        ),
    }
}
