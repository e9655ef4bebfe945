// One step from the entering column on: its solve, the ratio, then a flip or an exchange. From minilp 0.2.2,
// src/solver.rs, choose_pivot and pivot, Apache-2.0, changed: 01's answers 21 and 23, and the vectors are local arrays.
#![tactic(auto)]

ghost use Rattle.std.specs.Prelude.{◌≡◌, Bool, List, ℕ, ◌<◌, length, Float};
ghost use Rattle.sparse.specs.Scattered.{sv, Fresh};
ghost use Rattle.rules.specs.Plan.{State};
ghost use Rattle.rules.specs.Parts.{rowed};
ghost use Rattle.rules.specs.Step as Step;
ghost use Rattle.basis_columns.specs.Columns.{ByColumns};
ghost use Rattle.state.specs.Packed.{state_in};
ghost use Rattle.step_refactor.specs.Left.{after_by, left_by, stepped};
ghost use Rattle.step_refactor.specs.Lent.{Ready, ReadyBy, Solved};
ghost use Rattle.step.specs.Found.{found, found_by};

// What is decided of a step: how many places the column lists, with the numbers of the flip or of the exchange, or why
// there is none.
#[derive(Clone, Copy)]
pub enum Decided {
    Flips { count: usize, value: f64, diff: f64 },
    Exchanges { count: usize, x: state::Exchange },
    Stops(rules::Stop),
}

// 01: "column solve; ratio; Unbounded", and a flip's new numbers. The column is written to a fresh vector, the state is
// read.
fn decide(
    values: &mut [f64; doubles::PLACES],
    marks: &mut [bool; doubles::PLACES],
    list: &mut [usize; doubles::PLACES],
    numbers: &[usize],
    doubles: &[f64],
    factor_numbers: &[usize],
    factor_coeffs: &[f64],
    at: state::Tally,
    n: usize,
    lowers: &[f64],
    uppers: &[f64],
    ops: &[u8],
    kept: &[usize],
    cstarts: &[usize],
    crows: &[usize],
    ccoeffs: &[f64],
    e: rules::Entering,
) -> Decided
    requires fresh { Fresh (sv values.old marks.old list.old 0) }
    requires ready_by { ReadyBy n lowers.now uppers.now ops.now kept.now cstarts.now crows.now ccoeffs.now
        numbers.now doubles.now factor_numbers.now factor_coeffs.now at × (e.col < n) }
    ensures { (starts cols : List ℕ) (coeffs : List Float) → ByColumns
        (rowed n starts cols coeffs kept.now) cstarts.now crows.now
        ccoeffs.now → found_by result values.new marks.new list.new ≡ found
        (stepped n lowers.now uppers.now starts cols coeffs ops.now
        kept.now) (state_in numbers.now doubles.now factor_numbers.now
        factor_coeffs.now at) e }
{
    let col = e.col;
    let count = step_reads::column(
        values,
        marks,
        list,
        numbers,
        doubles,
        factor_numbers,
        factor_coeffs,
        at,
        n,
        kept.len(),
        cstarts,
        crows,
        ccoeffs,
        col,
    );
    if !sparse::listed_finite(values, list, count) {
        return Decided::Stops(rules::Stop::NotFinite);
    }
    let found = step_reads::ratio(
        numbers, doubles, n, lowers, uppers, ops, kept, values, list, count, e,
    );
    match found {
        rules::Ratio::NotFinite => {
            return Decided::Stops(rules::Stop::NotFinite);
        }
        rules::Ratio::Unbounded => {
            return Decided::Stops(rules::Stop::Unbounded);
        }
        rules::Ratio::Pivot(pivot) => match pivot {
            rules::PivotInfo::Flip { value, diff } => {
                if !step_reads::flip_finite(doubles, at, values, list, count, e, value, diff) {
                    return Decided::Stops(rules::Stop::NotFinite);
                }
                return Decided::Flips { count, value, diff };
            }
            rules::PivotInfo::Exchange {
                value,
                diff,
                row,
                pivot,
                leaving,
            } => {
                let x = state::Exchange {
                    value,
                    diff,
                    row,
                    pivot,
                    leaving,
                };
                return Decided::Exchanges { count, x };
            }
        },
    }
}

// An exchange of a primal step: the row solve, then both kinds of norm and the rest.
fn exchange(
    numbers: &mut [usize],
    doubles: &mut [f64],
    factor_numbers: &mut [usize],
    factor_coeffs: &mut [f64],
    at: state::Tally,
    n: usize,
    lowers: &[f64],
    uppers: &[f64],
    starts: &[usize],
    cols: &[usize],
    coeffs: &[f64],
    ops: &[u8],
    kept: &[usize],
    cstarts: &[usize],
    crows: &[usize],
    ccoeffs: &[f64],
    values: &[f64; doubles::PLACES],
    list: &[usize; doubles::PLACES],
    count: usize,
    e: rules::Entering,
    x: state::Exchange,
) -> Result<state::Tally, rules::Stop>
    requires ready { Ready n lowers.now uppers.now starts.now cols.now coeffs.now ops.now kept.now
        numbers.old doubles.old factor_numbers.old factor_coeffs.old at }
    requires by_columns { ByColumns (rowed n starts.now cols.now coeffs.now kept.now) cstarts.now crows.now
        ccoeffs.now × (n < length cstarts.now) }
    requires solved { Solved (length kept.now) values.now list.now count × (e.col < n) × (x.row < length kept.now) }
    ensures { (m : List Bool) → left_by result numbers.new doubles.new
        factor_numbers.new factor_coeffs.new ≡ after_by
        (λ (s : State). Step.both_norms (stepped n lowers.now uppers.now starts.now
        cols.now coeffs.now ops.now kept.now) s e
        (sv values.now m list.now count) x.value x.diff x.row x.pivot x.leaving)
        (state_in numbers.old doubles.old factor_numbers.old
        factor_coeffs.old at) }
{
    let mut y = [0.0; doubles::PLACES];
    let mut y_marks = [false; doubles::PLACES];
    let mut y_list = [0usize; doubles::PLACES];
    let y_count = step_reads::inv_row(
        &mut y,
        &mut y_marks,
        &mut y_list,
        numbers,
        doubles,
        factor_numbers,
        factor_coeffs,
        at,
        kept.len(),
        x.row,
    );
    step_norms::exchange(
        numbers,
        doubles,
        factor_numbers,
        factor_coeffs,
        at,
        n,
        lowers,
        uppers,
        starts,
        cols,
        coeffs,
        ops,
        kept,
        cstarts,
        crows,
        ccoeffs,
        values,
        list,
        count,
        &y,
        &y_list,
        y_count,
        e,
        x,
    )
}

// A step that is decided is a stop, a flip to be stored, or an exchange, whose leaving row is touched in the column.
pub fn step(
    numbers: &mut [usize],
    doubles: &mut [f64],
    factor_numbers: &mut [usize],
    factor_coeffs: &mut [f64],
    at: state::Tally,
    n: usize,
    lowers: &[f64],
    uppers: &[f64],
    starts: &[usize],
    cols: &[usize],
    coeffs: &[f64],
    ops: &[u8],
    kept: &[usize],
    cstarts: &[usize],
    crows: &[usize],
    ccoeffs: &[f64],
    e: rules::Entering,
) -> Result<state::Tally, rules::Stop>
    requires ready { Ready n lowers.now uppers.now starts.now cols.now coeffs.now ops.now kept.now
        numbers.old doubles.old factor_numbers.old factor_coeffs.old at }
    requires by_columns { ByColumns (rowed n starts.now cols.now coeffs.now kept.now) cstarts.now crows.now
        ccoeffs.now × (n < length cstarts.now) × (e.col < n) }
    ensures { left_by result numbers.new doubles.new factor_numbers.new
        factor_coeffs.new ≡ after_by
        (λ (s : State). Step.step (stepped n lowers.now uppers.now starts.now
        cols.now coeffs.now ops.now kept.now) s e)
        (state_in numbers.old doubles.old factor_numbers.old
        factor_coeffs.old at) }
{
    let mut values = [0.0; doubles::PLACES];
    let mut marks = [false; doubles::PLACES];
    let mut list = [0usize; doubles::PLACES];
    let decided = decide(
        &mut values,
        &mut marks,
        &mut list,
        numbers,
        doubles,
        factor_numbers,
        factor_coeffs,
        at,
        n,
        lowers,
        uppers,
        ops,
        kept,
        cstarts,
        crows,
        ccoeffs,
        e,
    );
    match decided {
        Decided::Stops(why) => {
            return Err(why);
        }
        Decided::Flips { count, value, diff } => {
            return Ok(step_store::store_flip(
                numbers, doubles, at, n, lowers, uppers, ops, kept, &values, &list, count, e,
                value, diff,
            ));
        }
        Decided::Exchanges { count, x } => {
            let touched = sparse::touch(&mut marks, &mut list, count, x.row);
            return exchange(
                numbers,
                doubles,
                factor_numbers,
                factor_coeffs,
                at,
                n,
                lowers,
                uppers,
                starts,
                cols,
                coeffs,
                ops,
                kept,
                cstarts,
                crows,
                ccoeffs,
                &values,
                &list,
                touched,
                e,
                x,
            );
        }
    }
}
