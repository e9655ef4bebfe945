// An exchange is decided (row solve, all new numbers), then stored with its eta column or, where that doesn't fit, with the
// new basis' factor. Nothing is stored before every test has passed, and a store can't fail. From minilp 0.2.2,
// src/solver.rs, pivot, Apache-2.0, changed: 01's answer 23, 02's factoring, and the vectors are local arrays.
#![tactic(auto)]

ghost use Rattle.std.specs.Prelude.{◌≡◌, Bool, ◌&&◌, List, ℕ, ◌<◌, ◌≤◌, length};
ghost use Rattle.doubles.specs.Limits.{max_rows, max_columns, places};
ghost use Rattle.sparse.specs.Scattered.{sv, Within, listed_finite, Fresh};
ghost use Rattle.rules.specs.Plan.{Problem, State};
ghost use Rattle.rules.specs.Parts.{rowed};
ghost use Rattle.rules.specs.Pivot.{numbers_finite};
ghost use Rattle.rules.specs.Step as Step;
ghost use Rattle.step_numbers.specs.Lent.{Listing};
ghost use Rattle.basis_columns.specs.Columns.{ByColumns};
ghost use Rattle.state.specs.Packed.{state_at, state_in, objective_at};
ghost use Rattle.step_refactor.specs.Left.{after_by, left_by, stepped};
ghost use Rattle.step_refactor.specs.Lent.{Ready, Solved, Squares};
ghost use Rattle.step_exchange.specs.Decided.{decided, decided_by};
ghost use Rattle.step_exchange.specs.Lent.{Solving, Inverse};

// 01: "Column, row and helper entries .. must be finite", and every number to be stored.
fn numbers_finite(
    doubles: &[f64],
    at: state::Tally,
    values: &[f64; doubles::PLACES],
    list: &[usize; doubles::PLACES],
    count: usize,
    row_values: &[f64; doubles::PLACES],
    row_list: &[usize; doubles::PLACES],
    row_count: usize,
    helper_values: &[f64; doubles::PLACES],
    helper_list: &[usize; doubles::PLACES],
    helper_count: usize,
    sq: f64,
    e: rules::Entering,
    x: state::Exchange,
) -> bool
    requires doubles_len { (length doubles.now ≡ objective_at) × Listing max_rows count list.now × Listing max_columns
        row_count row_list.now }
    requires squares { Squares values.now list.now count sq × (helper_count ≤ places) × Within places helper_count
        helper_list.now }
    ensures { (P : Problem) (N : List ℕ) (m rm hm : List Bool) → result ≡
        (listed_finite (sv row_values.now rm row_list.now row_count) && listed_finite
        (sv helper_values.now hm helper_list.now helper_count) && numbers_finite P
        (state_at N doubles.now at) e (sv values.now m list.now count)
        (sv row_values.now rm row_list.now row_count)
        (sv helper_values.now hm helper_list.now helper_count) x.value x.diff x.row
        x.pivot x.leaving) }
{
    if !sparse::listed_finite(row_values, row_list, row_count) {
        return false;
    }
    if !sparse::listed_finite(helper_values, helper_list, helper_count) {
        return false;
    }
    step_reads::numbers_finite(
        doubles,
        at,
        values,
        list,
        count,
        row_values,
        row_list,
        row_count,
        helper_values,
        sq,
        e,
        x,
    )
}

// 01: "row solve; all new numbers". The row, touched at the entering place, and the helper are written to fresh vectors, the
// state is read. y is the row solve's result.
fn decide(
    row_values: &mut [f64; doubles::PLACES],
    row_marks: &mut [bool; doubles::PLACES],
    row_list: &mut [usize; doubles::PLACES],
    helper_values: &mut [f64; doubles::PLACES],
    helper_marks: &mut [bool; doubles::PLACES],
    helper_list: &mut [usize; doubles::PLACES],
    numbers: &[usize],
    doubles: &[f64],
    factor_numbers: &[usize],
    factor_coeffs: &[f64],
    at: state::Tally,
    n: usize,
    starts: &[usize],
    cols: &[usize],
    coeffs: &[f64],
    kept: &[usize],
    values: &[f64; doubles::PLACES],
    list: &[usize; doubles::PLACES],
    count: usize,
    y: &[f64; doubles::PLACES],
    y_list: &[usize; doubles::PLACES],
    y_count: usize,
    sq: f64,
    e: rules::Entering,
    x: state::Exchange,
) -> Option<usize>
    requires fresh { Fresh (sv row_values.old row_marks.old row_list.old 0) × Fresh
        (sv helper_values.old helper_marks.old helper_list.old 0) }
    requires solving { Solving n starts.now cols.now coeffs.now kept.now numbers.now doubles.now
        factor_numbers.now factor_coeffs.now at × Solved (length kept.now) values.now list.now count
        × Squares values.now list.now count sq × (x.row < length kept.now) × (e.col < n) }
    requires inverse { Inverse (rowed n starts.now cols.now coeffs.now kept.now)
        (state_in numbers.now doubles.now factor_numbers.now factor_coeffs.now at) x.row y.now
        y_list.now y_count }
    ensures { (m : List Bool) → decided_by result row_values.new row_marks.new
        row_list.new helper_values.new ≡ decided
        (rowed n starts.now cols.now coeffs.now kept.now)
        (state_in numbers.now doubles.now factor_numbers.now
        factor_coeffs.now at) e (sv values.now m list.now count) x }
{
    let untouched = step_reads::row(
        row_values, row_marks, row_list, y, y_list, y_count, numbers, n, starts, cols, coeffs, kept,
    );
    let row_count = sparse::touch(row_marks, row_list, untouched, e.col);
    let helper_count = step_reads::helper(
        helper_values,
        helper_marks,
        helper_list,
        values,
        list,
        count,
        numbers,
        doubles,
        factor_numbers,
        factor_coeffs,
        at,
        n,
        starts,
        cols,
        coeffs,
        kept,
    );
    if !numbers_finite(
        doubles,
        at,
        values,
        list,
        count,
        row_values,
        row_list,
        row_count,
        helper_values,
        helper_list,
        helper_count,
        sq,
        e,
        x,
    ) {
        return None;
    }
    Some(row_count)
}

// An exchange: "row solve; all new numbers; then the eta entries where the column fits, or the factor where it doesn't; then
// the store" (docs/RULES-02.md). The column is touched at the leaving row already, and y is the row solve's result, which the
// dual norms need too.
pub fn exchange(
    numbers: &mut [usize],
    doubles: &mut [f64],
    factor_numbers: &mut [usize],
    factor_coeffs: &mut [f64],
    at: state::Tally,
    n: usize,
    lowers: &[f64],
    uppers: &[f64],
    starts: &[usize],
    cols: &[usize],
    coeffs: &[f64],
    ops: &[u8],
    kept: &[usize],
    cstarts: &[usize],
    crows: &[usize],
    ccoeffs: &[f64],
    values: &[f64; doubles::PLACES],
    list: &[usize; doubles::PLACES],
    count: usize,
    y: &[f64; doubles::PLACES],
    y_list: &[usize; doubles::PLACES],
    y_count: usize,
    e: rules::Entering,
    x: state::Exchange,
) -> Result<state::Tally, rules::Stop>
    requires ready { Ready n lowers.now uppers.now starts.now cols.now coeffs.now ops.now kept.now
        numbers.old doubles.old factor_numbers.old factor_coeffs.old at }
    requires by_columns { ByColumns (rowed n starts.now cols.now coeffs.now kept.now) cstarts.now crows.now
        ccoeffs.now × (n < length cstarts.now) }
    requires solved { Solved (length kept.now) values.now list.now count × (e.col < n) × (x.row < length kept.now)
        × Inverse (rowed n starts.now cols.now coeffs.now kept.now)
        (state_in numbers.old doubles.old factor_numbers.old factor_coeffs.old at) x.row y.now
        y_list.now y_count }
    ensures { (m : List Bool) → left_by result numbers.new doubles.new
        factor_numbers.new factor_coeffs.new ≡ after_by
        (λ (s : State). Step.exchange (stepped n lowers.now uppers.now starts.now
        cols.now coeffs.now ops.now kept.now) s e
        (sv values.now m list.now count) x.value x.diff x.row x.pivot x.leaving)
        (state_in numbers.old doubles.old factor_numbers.old
        factor_coeffs.old at) }
{
    let mut row_values = [0.0; doubles::PLACES];
    let mut row_marks = [false; doubles::PLACES];
    let mut row_list = [0usize; doubles::PLACES];
    let mut helper_values = [0.0; doubles::PLACES];
    let mut helper_marks = [false; doubles::PLACES];
    let mut helper_list = [0usize; doubles::PLACES];
    let sq = sparse::sq_norm(values, list, count);
    let decided = decide(
        &mut row_values,
        &mut row_marks,
        &mut row_list,
        &mut helper_values,
        &mut helper_marks,
        &mut helper_list,
        numbers,
        doubles,
        factor_numbers,
        factor_coeffs,
        at,
        n,
        starts,
        cols,
        coeffs,
        kept,
        values,
        list,
        count,
        y,
        y_list,
        y_count,
        sq,
        e,
        x,
    );
    let Some(row_count) = decided else {
        return Err(rules::Stop::NotFinite);
    };
    if !basis_store::eta_fits(numbers, at, count) {
        return step_refactor::refactor(
            numbers,
            doubles,
            factor_numbers,
            factor_coeffs,
            at,
            n,
            lowers,
            uppers,
            ops,
            kept,
            cstarts,
            crows,
            ccoeffs,
            values,
            list,
            count,
            &row_values,
            &row_list,
            row_count,
            &helper_values,
            sq,
            e,
            x,
        );
    }
    if !step_numbers::eta_finite(values, list, count, x.row, x.pivot) {
        return Err(rules::Stop::NotFinite);
    }
    Ok(step_store::store_exchange(
        numbers,
        doubles,
        at,
        n,
        lowers,
        uppers,
        ops,
        kept,
        values,
        list,
        count,
        &row_values,
        &row_list,
        row_count,
        &helper_values,
        sq,
        e,
        x,
    ))
}
