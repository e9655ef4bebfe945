// A stage's plan handed to the solver: in doubles, and solved (02, Ask 14).
#![tactic(auto)]

ghost use Rattle.std.specs.Prelude.{◌≡◌, [], ◌+◌, replicate};
ghost use Rattle.sheet_rules.specs.Sheet.{plan_of};
ghost use Rattle.doubles.specs.Limits.{max_rows};
ghost use Rattle.night_rules.specs.Doubles.{entry_count, doubles_plan};
ghost use Rattle.night_doubles.specs.Laid.{cells_of};
ghost use Rattle.night_doubles.specs.Converted.{Converts};
ghost use Rattle.night_rules.specs.Arrays.{arrays_of, ran, run_on};

// The plan in doubles, solved. Its row starts are handed out: the proposal reads them.
pub fn run(
    rows: usize,
    columns: usize,
    coefs: &[i64],
    costs: &[i64],
    lowers: &[i64],
    uppers: &[i64],
    lower_marks: &[u8],
    upper_marks: &[u8],
    rhs: &[i64],
    ops: &[u8],
    entries: usize,
    budget: usize,
    tolerance: f64,
    starts: &mut [usize; doubles::MAX_ROWS + 1],
    values: &mut [f64],
    numbers: &mut [usize],
    doubles: &mut [f64],
    factor_numbers: &mut [usize],
    factor_coeffs: &mut [f64],
) -> rules::Answer
    requires { Converts (plan_of rows columns coefs.now costs.now lowers.now uppers.now lower_marks.now
        upper_marks.now rhs.now [] [] []) × (entries ≡ entry_count (cells_of rows columns coefs.now)) ×
        (starts.old ≡ replicate (max_rows + 1) 0) }
    ensures { (ran result (arrays_of values.new numbers.new doubles.new
        factor_numbers.new factor_coeffs.new) ≡ run_on (doubles_plan budget tolerance
        (plan_of rows columns coefs.now costs.now lowers.now uppers.now
        lower_marks.now upper_marks.now rhs.now ops.now [] []))
        (arrays_of values.old numbers.old doubles.old factor_numbers.old
        factor_coeffs.old)) × (starts.new ≡ (doubles_plan budget tolerance
        (plan_of rows columns coefs.now costs.now lowers.now uppers.now
        lower_marks.now upper_marks.now rhs.now ops.now [] [])).starts) }
{
    let mut plan_costs = [0.0; doubles::MAX_COLUMNS];
    let mut plan_lowers = [0.0; doubles::MAX_COLUMNS];
    let mut plan_uppers = [0.0; doubles::MAX_COLUMNS];
    let mut cols = [0usize; doubles::MAX_ENTRIES];
    let mut coeffs = [0.0; doubles::MAX_ENTRIES];
    let mut plan_rhs = [0.0; doubles::MAX_ROWS];
    night_doubles::convert(
        rows,
        columns,
        coefs,
        costs,
        lowers,
        uppers,
        lower_marks,
        upper_marks,
        rhs,
        &mut plan_costs,
        &mut plan_lowers,
        &mut plan_uppers,
        starts,
        &mut cols,
        &mut coeffs,
        &mut plan_rhs,
    );
    solve::solve(
        columns,
        rows,
        entries,
        budget,
        tolerance,
        &plan_costs,
        &plan_lowers,
        &plan_uppers,
        starts,
        &cols,
        &coeffs,
        ops,
        &plan_rhs,
        values,
        numbers,
        doubles,
        factor_numbers,
        factor_coeffs,
    )
}
