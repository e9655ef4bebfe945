// One stage of the night: a sheet's plan is handed to the solver, the run's numbers are rounded, and the sheet with
// them is opened and judged (02, Ask 14).
#![tactic(auto)]

ghost use Rattle.std.specs.Prelude.{◌≡◌, [], ◌≤◌, length};
ghost use Rattle.sheet_rules.specs.Sheet.{plan_of};
ghost use Rattle.night_rules.specs.Arrays.{arrays_of};
ghost use Rattle.night_rules.specs.Stage.{Lends, section_cells, stage_of, left, leaves};

// The section is written exactly where the sheet is opened.
pub fn stage(
    rows: usize,
    columns: usize,
    coefs: &[i64],
    costs: &[i64],
    lowers: &[i64],
    uppers: &[i64],
    lower_marks: &[u8],
    upper_marks: &[u8],
    rhs: &[i64],
    ops: &[u8],
    budget: usize,
    tolerance: f64,
    values: &mut [f64],
    numbers: &mut [usize],
    doubles: &mut [f64],
    factor_numbers: &mut [usize],
    factor_coeffs: &mut [f64],
    section: &mut [i64],
) -> night_rules::Stage
    requires { Lends (plan_of rows columns coefs.now costs.now lowers.now uppers.now lower_marks.now
        upper_marks.now rhs.now ops.now [] []) × (section_cells ≤ length section.old) }
    ensures { left result (arrays_of values.new numbers.new doubles.new
        factor_numbers.new factor_coeffs.new) section.new ≡ leaves
        (stage_of budget tolerance (plan_of rows columns coefs.now costs.now lowers.now
        uppers.now lower_marks.now upper_marks.now rhs.now
        ops.now [] []) (arrays_of values.old numbers.old doubles.old
        factor_numbers.old factor_coeffs.old)) section.old }
{
    let entries = night_doubles::entries(rows, columns, coefs);
    if doubles::MAX_ENTRIES < entries {
        return night_rules::Stage {
            run: rules::Answer::BadSize,
            audit: night_rules::Audit::NotRun,
        };
    }
    let mut starts = [0usize; doubles::MAX_ROWS + 1];
    let answer = night_solve::run(
        rows,
        columns,
        coefs,
        costs,
        lowers,
        uppers,
        lower_marks,
        upper_marks,
        rhs,
        ops,
        entries,
        budget,
        tolerance,
        &mut starts,
        values,
        numbers,
        doubles,
        factor_numbers,
        factor_coeffs,
    );
    if check_close::number_of(answer) != 0 {
        return night_rules::Stage {
            run: answer,
            audit: night_rules::Audit::NotRun,
        };
    }
    let audit = night_sheet::audit(
        rows,
        columns,
        coefs,
        costs,
        lowers,
        uppers,
        lower_marks,
        upper_marks,
        rhs,
        ops,
        &starts,
        values,
        numbers,
        doubles,
        section,
    );
    night_rules::Stage {
        run: answer,
        audit: audit,
    }
}
