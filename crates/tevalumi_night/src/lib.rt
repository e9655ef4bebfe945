// The night, for C and Rust (02, Ask 14).
#![tactic(auto)]

ghost use Rattle.std.specs.Prelude.{◌≡◌, []};
ghost use Rattle.sheet_rules.specs.Sheet.{plan_of};
ghost use Rattle.night_rules.specs.Arrays.{arrays_of};
ghost use Rattle.night_rules.specs.Night.{night_of, night_plan};
ghost use Rattle.night_face.specs.Numbers.{faced, faced_by};

use night_face::TevalumiNight;

#[unsafe(no_mangle)]
pub extern "C" fn tevalumi_night(
    rows: usize,
    columns: usize,
    coefs: &[i64],
    alarm_costs: &[i64],
    report_costs: &[i64],
    lowers: &[i64],
    uppers: &[i64],
    lower_marks: &[u8],
    upper_marks: &[u8],
    rhs: &[i64],
    ops: &[u8],
    budget: usize,
    tolerance: f64,
    values: &mut [f64],
    numbers: &mut [usize],
    doubles: &mut [f64],
    factor_numbers: &mut [usize],
    factor_coeffs: &mut [f64],
    whole: &mut [i64],
) -> TevalumiNight
    ensures { faced result (arrays_of values.new numbers.new doubles.new
        factor_numbers.new factor_coeffs.new) whole.new ≡ faced_by (night_plan
        (night_of (plan_of rows columns coefs.now alarm_costs.now lowers.now
        uppers.now lower_marks.now upper_marks.now rhs.now
        ops.now [] []) report_costs.now budget tolerance)
        (arrays_of values.old numbers.old doubles.old
        factor_numbers.old factor_coeffs.old) whole.old) }
{
    let a = night_run::night(
        rows,
        columns,
        coefs,
        alarm_costs,
        report_costs,
        lowers,
        uppers,
        lower_marks,
        upper_marks,
        rhs,
        ops,
        budget,
        tolerance,
        values,
        numbers,
        doubles,
        factor_numbers,
        factor_coeffs,
        whole,
    );
    TevalumiNight::from(a)
}
