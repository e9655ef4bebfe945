// One dual step from the leaving row on: the row, the ratio on prices, the entering column, then an exchange. From minilp
// 0.2.2, src/solver.rs, restore_feasibility and pivot, Apache-2.0, changed: 02's answers 23 and 26, and the vectors are local
// arrays.
#![tactic(auto)]

ghost use Rattle.std.specs.Prelude.{◌≡◌, ◌<◌, length};
ghost use Rattle.sparse.specs.Scattered.{sv, Fresh};
ghost use Rattle.rules.specs.Plan.{State};
ghost use Rattle.rules.specs.Parts.{rowed};
ghost use Rattle.rules.specs.DualRatio.{leaving_rises, test_by};
ghost use Rattle.rules.specs.Step as Step;
ghost use Rattle.basis_columns.specs.Columns.{ByColumns};
ghost use Rattle.state.specs.Packed.{state_in};
ghost use Rattle.step_refactor.specs.Left.{after_by, left_by, stepped};
ghost use Rattle.step_refactor.specs.Lent.{Ready};
ghost use Rattle.step_exchange.specs.Lent.{Solving, Inverse};
ghost use Rattle.step_dual.specs.Found.{found, found_by, entered};

// What is decided of a dual step: how many places the row solve's result lists, with the entering column and the numbers of
// the exchange, or why there is none.
#[derive(Clone, Copy)]
pub enum Decided {
    Enters {
        count: usize,
        e: rules::Entering,
        x: state::Exchange,
    },
    Stops(rules::Stop),
}

// docs/RULES-02.md: "Row solve and row, as for an exchange; every listed entry finite, else 23", then the ratio on prices. The
// row solve's result is written to a fresh vector, the state is read.
fn decide(
    y: &mut [f64; doubles::PLACES],
    y_marks: &mut [bool; doubles::PLACES],
    y_list: &mut [usize; doubles::PLACES],
    numbers: &[usize],
    doubles: &[f64],
    factor_numbers: &[usize],
    factor_coeffs: &[f64],
    at: state::Tally,
    n: usize,
    starts: &[usize],
    cols: &[usize],
    coeffs: &[f64],
    kept: &[usize],
    l: rules::LeavingVar,
    still: bool,
) -> Decided
    requires fresh { Fresh (sv y.old y_marks.old y_list.old 0) }
    requires solving { Solving n starts.now cols.now coeffs.now kept.now numbers.now doubles.now
        factor_numbers.now factor_coeffs.now at × (l.row < length kept.now) }
    ensures { found_by result y.new y_marks.new y_list.new ≡ found still
        (rowed n starts.now cols.now coeffs.now kept.now)
        (state_in numbers.now doubles.now factor_numbers.now
        factor_coeffs.now at) l }
{
    let row = l.row;
    let y_count = step_reads::inv_row(
        y,
        y_marks,
        y_list,
        numbers,
        doubles,
        factor_numbers,
        factor_coeffs,
        at,
        kept.len(),
        row,
    );
    let mut values = [0.0; doubles::PLACES];
    let mut marks = [false; doubles::PLACES];
    let mut list = [0usize; doubles::PLACES];
    let count = step_reads::row(
        &mut values,
        &mut marks,
        &mut list,
        y,
        y_list,
        y_count,
        numbers,
        n,
        starts,
        cols,
        coeffs,
        kept,
    );
    if !sparse::listed_finite(&values, &list, count) {
        return Decided::Stops(rules::Stop::NotFinite);
    }
    let ratio = step_dual_reads::dual_ratio(numbers, doubles, &values, &list, count, l, still);
    match ratio {
        rules::DualRatio::NotFinite => {
            return Decided::Stops(rules::Stop::NotFinite);
        }
        rules::DualRatio::Nothing => {
            return Decided::Stops(rules::Stop::Infeasible(row));
        }
        rules::DualRatio::Exchange {
            entering,
            value,
            diff,
            pivot,
        } => {
            let x = state::Exchange {
                value,
                diff,
                row,
                pivot,
                leaving: l.value,
            };
            return Decided::Enters {
                count: y_count,
                e: entering,
                x,
            };
        }
    }
}

// "Column solve of the entering variable; every listed entry finite, else 23; the two touches. From here as a primal
// exchange".
fn enter(
    numbers: &mut [usize],
    doubles: &mut [f64],
    factor_numbers: &mut [usize],
    factor_coeffs: &mut [f64],
    at: state::Tally,
    n: usize,
    lowers: &[f64],
    uppers: &[f64],
    starts: &[usize],
    cols: &[usize],
    coeffs: &[f64],
    ops: &[u8],
    kept: &[usize],
    cstarts: &[usize],
    crows: &[usize],
    ccoeffs: &[f64],
    y: &[f64; doubles::PLACES],
    y_list: &[usize; doubles::PLACES],
    y_count: usize,
    e: rules::Entering,
    x: state::Exchange,
) -> Result<state::Tally, rules::Stop>
    requires ready { Ready n lowers.now uppers.now starts.now cols.now coeffs.now ops.now kept.now
        numbers.old doubles.old factor_numbers.old factor_coeffs.old at }
    requires by_columns { ByColumns (rowed n starts.now cols.now coeffs.now kept.now) cstarts.now crows.now
        ccoeffs.now × (n < length cstarts.now) }
    requires col_lt_n { (e.col < n) × (x.row < length kept.now)
        × Inverse (rowed n starts.now cols.now coeffs.now kept.now)
        (state_in numbers.old doubles.old factor_numbers.old factor_coeffs.old at) x.row y.now
        y_list.now y_count }
    ensures { left_by result numbers.new doubles.new factor_numbers.new
        factor_coeffs.new ≡ after_by
        (λ (s : State). entered (stepped n lowers.now uppers.now starts.now
        cols.now coeffs.now ops.now kept.now) s e x)
        (state_in numbers.old doubles.old factor_numbers.old
        factor_coeffs.old at) }
{
    let mut values = [0.0; doubles::PLACES];
    let mut marks = [false; doubles::PLACES];
    let mut list = [0usize; doubles::PLACES];
    let col = e.col;
    let count = step_reads::column(
        &mut values,
        &mut marks,
        &mut list,
        numbers,
        doubles,
        factor_numbers,
        factor_coeffs,
        at,
        n,
        kept.len(),
        cstarts,
        crows,
        ccoeffs,
        col,
    );
    if !sparse::listed_finite(&values, &list, count) {
        return Err(rules::Stop::NotFinite);
    }
    let touched = sparse::touch(&mut marks, &mut list, count, x.row);
    step_norms::exchange(
        numbers,
        doubles,
        factor_numbers,
        factor_coeffs,
        at,
        n,
        lowers,
        uppers,
        starts,
        cols,
        coeffs,
        ops,
        kept,
        cstarts,
        crows,
        ccoeffs,
        &values,
        &list,
        touched,
        y,
        y_list,
        y_count,
        e,
        x,
    )
}

// A dual step that is decided is a stop or an exchange. `still`: 02, Ask 9, the leaving variable is fixed where it
// stands. A run's steps have false.
pub fn dual_step(
    numbers: &mut [usize],
    doubles: &mut [f64],
    factor_numbers: &mut [usize],
    factor_coeffs: &mut [f64],
    at: state::Tally,
    n: usize,
    lowers: &[f64],
    uppers: &[f64],
    starts: &[usize],
    cols: &[usize],
    coeffs: &[f64],
    ops: &[u8],
    kept: &[usize],
    cstarts: &[usize],
    crows: &[usize],
    ccoeffs: &[f64],
    l: rules::LeavingVar,
    still: bool,
) -> Result<state::Tally, rules::Stop>
    requires ready { Ready n lowers.now uppers.now starts.now cols.now coeffs.now ops.now kept.now
        numbers.old doubles.old factor_numbers.old factor_coeffs.old at }
    requires by_columns { ByColumns (rowed n starts.now cols.now coeffs.now kept.now) cstarts.now crows.now
        ccoeffs.now × (n < length cstarts.now) × (l.row < length kept.now) }
    ensures { left_by result numbers.new doubles.new factor_numbers.new
        factor_coeffs.new ≡ after_by
        (λ (s : State). Step.dual_step_by (test_by still (leaving_rises s.ws l))
        (stepped n lowers.now uppers.now starts.now cols.now
        coeffs.now ops.now kept.now) s l)
        (state_in numbers.old doubles.old factor_numbers.old
        factor_coeffs.old at) }
{
    let mut y = [0.0; doubles::PLACES];
    let mut y_marks = [false; doubles::PLACES];
    let mut y_list = [0usize; doubles::PLACES];
    let decided = decide(
        &mut y,
        &mut y_marks,
        &mut y_list,
        numbers,
        doubles,
        factor_numbers,
        factor_coeffs,
        at,
        n,
        starts,
        cols,
        coeffs,
        kept,
        l,
        still,
    );
    match decided {
        Decided::Stops(why) => {
            return Err(why);
        }
        Decided::Enters { count, e, x } => {
            return enter(
                numbers,
                doubles,
                factor_numbers,
                factor_coeffs,
                at,
                n,
                lowers,
                uppers,
                starts,
                cols,
                coeffs,
                ops,
                kept,
                cstarts,
                crows,
                ccoeffs,
                &y,
                &y_list,
                count,
                e,
                x,
            );
        }
    }
}
