// The second stage of a night, and what is handed out (02, Ask 14).
#![tactic(auto)]

ghost use Rattle.std.specs.Prelude.{◌≡◌, [], ◌≤◌, ◌<◌, length, take};
ghost use Rattle.doubles.specs.Limits.{max_rows, max_columns};
ghost use Rattle.sheet_rules.specs.Sheet.{plan_of};
ghost use Rattle.night_rules.specs.Arrays.{Arrays, arrays_of};
ghost use Rattle.night_rules.specs.Stage.{Lends, section_cells};
ghost use Rattle.night_rules.specs.Night.{night_of, whole_end, called, second_part};
ghost use Rattle.night_handing.specs.Handing.{stored, hand_over};

use night_rules::{Audit, NightAnswer, Stage};

// The second stage's section, where its sheet was opened.
fn store(audit: Audit, section: &[i64], whole: &mut [i64])
    requires { (length section.now ≡ section_cells) × (whole_end ≤ length whole.old) }
    ensures { whole.new ≡ stored audit section.now whole.old }
{
    if night_second::is_judged(audit) {
        lu_packed::put(section, night_rules::SECOND, whole);
    }
}

// Whose amounts are handed out.
fn hand_out(
    first: Stage,
    second: Stage,
    amounts: &[i64],
    section: &[i64],
    whole: &mut [i64],
) -> NightAnswer
    requires { (length amounts.now ≡ max_columns) × (length section.now ≡ section_cells) ×
        (whole_end ≤ length whole.old) }
    ensures { (a : Arrays) → called result a whole.new ≡ hand_over first second amounts.now
        section.now a whole.old }
{
    let audit = second.audit;
    store(audit, section, whole);
    if night_second::first_stands(audit) {
        lu_packed::put(amounts, night_rules::HANDED, whole);
        return NightAnswer::FirstStands {
            first: first,
            second: second,
        };
    }
    lu_packed::put(
        &section[..night_rules::AMOUNTS_END],
        night_rules::HANDED,
        whole,
    );
    NightAnswer::Handed {
        first: first,
        second: second,
    }
}

// The second stage, and what is handed out. The first stage's amounts stand at the front of `whole`.
pub fn second_part(
    first: Stage,
    found: i64,
    rows: usize,
    columns: usize,
    coefs: &[i64],
    alarm_costs: &[i64],
    report_costs: &[i64],
    lowers: &[i64],
    uppers: &[i64],
    lower_marks: &[u8],
    upper_marks: &[u8],
    rhs: &[i64],
    ops: &[u8],
    budget: usize,
    tolerance: f64,
    values: &mut [f64],
    numbers: &mut [usize],
    doubles: &mut [f64],
    factor_numbers: &mut [usize],
    factor_coeffs: &mut [f64],
    whole: &mut [i64],
) -> NightAnswer
    requires { Lends (plan_of rows columns coefs.now alarm_costs.now lowers.now uppers.now
        lower_marks.now upper_marks.now rhs.now ops.now [] []) × (rows < max_rows) ×
        (columns ≤ length report_costs.now) × (whole_end ≤ length whole.old) }
    ensures { called result (arrays_of values.new numbers.new doubles.new
        factor_numbers.new factor_coeffs.new) whole.new ≡ second_part
        (night_of (plan_of rows columns coefs.now alarm_costs.now lowers.now
        uppers.now lower_marks.now upper_marks.now rhs.now
        ops.now [] []) report_costs.now budget tolerance) first
        (take max_columns whole.old) found (arrays_of values.old numbers.old
        doubles.old factor_numbers.old factor_coeffs.old)
        whole.old }
{
    let mut amounts = [0i64; night_rules::AMOUNTS_END];
    lu_packed::put(&whole[..night_rules::AMOUNTS_END], 0, &mut amounts);
    night_second::lay_coefs(rows, columns, coefs, alarm_costs, whole);
    let mut sides = [0i64; doubles::MAX_ROWS];
    night_second::lay(rows, rhs, found, &mut sides);
    let mut comparisons = [0u8; doubles::MAX_ROWS];
    night_second::lay(rows, ops, 0, &mut comparisons);
    let more = rows + 1;
    let end = night_rules::COEFS + more * columns;
    let mut section = [0i64; night_rules::SECTION];
    let second = night_stage::stage(
        more,
        columns,
        &whole[night_rules::COEFS..end],
        report_costs,
        lowers,
        uppers,
        lower_marks,
        upper_marks,
        &sides[..more],
        &comparisons[..more],
        budget,
        tolerance,
        values,
        numbers,
        doubles,
        factor_numbers,
        factor_coeffs,
        &mut section,
    );
    hand_out(first, second, &amounts, &section, whole)
}
