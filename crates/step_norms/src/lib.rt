// An exchange with both kinds of norm. From minilp 0.2.2, src/solver.rs, update_dual_sq_norms, Apache-2.0, changed: tau and
// the dual norms are tested before anything is stored, they are stored behind the rest of the exchange, and the row solve's
// result is lent.
#![tactic(auto)]

ghost use Rattle.std.specs.Prelude.{◌≡◌, Bool, List, [], ℕ, ◌<◌, ◌≤◌, length};
ghost use Rattle.doubles.specs.Limits.{max_rows, places};
ghost use Rattle.sparse.specs.Scattered.{Pat, sv, sv_of, Within, relisted, Fresh};
ghost use Rattle.rules.specs.Plan.{Problem, State, m_of};
ghost use Rattle.rules.specs.Parts.{rowed, factored_of};
ghost use Rattle.rules.specs.Step as Step;
ghost use Rattle.rules.specs.Invariant.{FactorFits, Vector};
ghost use Rattle.basis_columns.specs.Columns.{ByColumns};
ghost use Rattle.basis_etas.specs.Store.{Readable};
ghost use Rattle.step_numbers.specs.Lent.{Listing};
ghost use Rattle.state.specs.Packed.{packed, state_in, Sized, objective_at};
ghost use Rattle.step_refactor.specs.Left.{after_by, left_by, stepped};
ghost use Rattle.step_refactor.specs.Lent.{Ready, Solved, Squares};
ghost use Rattle.step_exchange.specs.Lent.{Inverse};
ghost use Rattle.step_norms.specs.Tested.{tested, tested_by, dual_stored};

// docs/RULES-02.md: tau's "listed entries must be finite, else 23", "New dual norms must be finite, else 23". tau is written
// to a fresh vector, the state is read. `sq` is the sum of squares of y, the row solve's result.
fn decide(
    tau: &mut [f64; doubles::PLACES],
    tau_marks: &mut [bool; doubles::PLACES],
    tau_list: &mut [usize; doubles::PLACES],
    numbers: &[usize],
    doubles: &[f64],
    factor_numbers: &[usize],
    factor_coeffs: &[f64],
    at: state::Tally,
    kept: &[usize],
    values: &[f64; doubles::PLACES],
    list: &[usize; doubles::PLACES],
    count: usize,
    y: &[f64; doubles::PLACES],
    y_list: &[usize; doubles::PLACES],
    y_count: usize,
    sq: f64,
    x: state::Exchange,
) -> bool
    requires fresh { Fresh (sv tau.old tau_marks.old tau_list.old 0) × Sized numbers.now doubles.now
        × Listing max_rows count list.now }
    requires y_count_le_places { (y_count ≤ places) × Within places y_count y_list.now × Squares y.now y_list.now y_count sq }
    requires vector { Vector (length kept.now) (relisted (sv y.now [] y_list.now y_count))
        × Readable (packed numbers.now doubles.now).etas at.eta_count
        × FactorFits (length kept.now) (factored_of at.factored at.factorings factor_numbers.now
        factor_coeffs.now) }
    ensures { (P : Problem) (cm ym : List Bool) → m_of P ≡ length kept.now → tested_by result tau.new ≡ tested P
        (state_in numbers.now doubles.now factor_numbers.now
        factor_coeffs.now at) (sv values.now cm list.now count) x
        (sv y.now ym y_list.now y_count) }
{
    let tau_count = step_reads::tau(
        tau,
        tau_marks,
        tau_list,
        y,
        y_list,
        y_count,
        numbers,
        doubles,
        factor_numbers,
        factor_coeffs,
        at,
        kept.len(),
    );
    if !sparse::listed_finite(tau, tau_list, tau_count) {
        return false;
    }
    step_numbers::norms_finite(
        &doubles[state::DUAL_NORMS..state::DUAL_NORMS_END],
        values,
        list,
        count,
        tau,
        x.row,
        sq,
        x.pivot,
    )
}

// The dual norms of the column's listed rows, in their section.
fn store_dual_norms(
    doubles: &mut [f64],
    values: &[f64; doubles::PLACES],
    list: &[usize; doubles::PLACES],
    count: usize,
    tau: &[f64; doubles::PLACES],
    row: usize,
    sq: f64,
    pivot: f64,
)
    requires { Listing max_rows count list.now × (length doubles.old ≡ objective_at) }
    ensures { (N : List ℕ) (m : List Bool) (p : Pat) → packed N doubles.new ≡ dual_stored
        (packed N doubles.old) (sv values.now m list.now count) row pivot sq
        (sv_of tau.now p) }
{
    step_store::store_norms(
        &mut doubles[state::DUAL_NORMS..state::DUAL_NORMS_END],
        values,
        list,
        count,
        tau,
        row,
        sq,
        pivot,
    );
}

// 02, Ask 8: an exchange of either kind. The column is touched at the leaving row already, and y is the row solve's result.
pub fn exchange(
    numbers: &mut [usize],
    doubles: &mut [f64],
    factor_numbers: &mut [usize],
    factor_coeffs: &mut [f64],
    at: state::Tally,
    n: usize,
    lowers: &[f64],
    uppers: &[f64],
    starts: &[usize],
    cols: &[usize],
    coeffs: &[f64],
    ops: &[u8],
    kept: &[usize],
    cstarts: &[usize],
    crows: &[usize],
    ccoeffs: &[f64],
    values: &[f64; doubles::PLACES],
    list: &[usize; doubles::PLACES],
    count: usize,
    y: &[f64; doubles::PLACES],
    y_list: &[usize; doubles::PLACES],
    y_count: usize,
    e: rules::Entering,
    x: state::Exchange,
) -> Result<state::Tally, rules::Stop>
    requires ready { Ready n lowers.now uppers.now starts.now cols.now coeffs.now ops.now kept.now
        numbers.old doubles.old factor_numbers.old factor_coeffs.old at }
    requires by_columns { ByColumns (rowed n starts.now cols.now coeffs.now kept.now) cstarts.now crows.now
        ccoeffs.now × (n < length cstarts.now) }
    requires solved { Solved (length kept.now) values.now list.now count × (e.col < n) × (x.row < length kept.now)
        × Inverse (rowed n starts.now cols.now coeffs.now kept.now)
        (state_in numbers.old doubles.old factor_numbers.old factor_coeffs.old at) x.row y.now
        y_list.now y_count }
    ensures { (m : List Bool) → left_by result numbers.new doubles.new
        factor_numbers.new factor_coeffs.new ≡ after_by
        (λ (s : State). Step.both_norms (stepped n lowers.now uppers.now starts.now
        cols.now coeffs.now ops.now kept.now) s e
        (sv values.now m list.now count) x.value x.diff x.row x.pivot x.leaving)
        (state_in numbers.old doubles.old factor_numbers.old
        factor_coeffs.old at) }
{
    let mut tau = [0.0; doubles::PLACES];
    let mut tau_marks = [false; doubles::PLACES];
    let mut tau_list = [0usize; doubles::PLACES];
    let sq = sparse::sq_norm(y, y_list, y_count);
    if !decide(
        &mut tau,
        &mut tau_marks,
        &mut tau_list,
        numbers,
        doubles,
        factor_numbers,
        factor_coeffs,
        at,
        kept,
        values,
        list,
        count,
        y,
        y_list,
        y_count,
        sq,
        x,
    ) {
        return Err(rules::Stop::NotFinite);
    }
    let went = step_exchange::exchange(
        numbers,
        doubles,
        factor_numbers,
        factor_coeffs,
        at,
        n,
        lowers,
        uppers,
        starts,
        cols,
        coeffs,
        ops,
        kept,
        cstarts,
        crows,
        ccoeffs,
        values,
        list,
        count,
        y,
        y_list,
        y_count,
        e,
        x,
    );
    match went {
        Err(why) => {
            return Err(why);
        }
        Ok(after) => {
            store_dual_norms(doubles, values, list, count, &tau, x.row, sq, x.pivot);
            return Ok(after);
        }
    }
}
