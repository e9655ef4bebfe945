// The end of a solve: the final check, the answer, and what is written of the lent arrays outside the workspace.
#![tactic(auto)]

ghost use Rattle.std.specs.Prelude.{◌≡◌, true, false, List, [], ◌∷◌, ℕ, ◌≤◌, eqb, length, Float};
ghost use Rattle.doubles.specs.Limits.{vars, count_cells};
ghost use Rattle.doubles.specs.Loop.{table};
ghost use Rattle.doubles.specs.Lists.{◌!◌, over};
ghost use Rattle.rules.specs.Plan.{bit};
ghost use Rattle.rules.specs.Parts.{state_of};
ghost use Rattle.rules.specs.FinalCheck.{values_of};
ghost use Rattle.rules.specs.Step.{ended};
ghost use Rattle.rules.specs.Answers.{number_of};
ghost use Rattle.rules.specs.Solve as Solve;
ghost use Rattle.state.specs.Packed.{packed, state_in, kept_at, objective_at};
ghost use Rattle.state.specs.Memory.{memory_in, past_of, handed, answered};
ghost use Rattle.check_final.specs.Lent.{sizes_of, checked_of};
ghost use Rattle.check_close.specs.Lent.{counted, Answers, Closes};

// 01's number of an answer.
pub fn number_of(a: rules::Answer) -> usize
    ensures { result ≡ number_of a }
{
    match a {
        rules::Answer::Optimal {
            objective: _,
            steps: _,
            excess: _,
        } => 0,
        rules::Answer::BadSize => 1,
        rules::Answer::BadNumber => 2,
        rules::Answer::BadEntry { row: _, place: _ } => 3,
        rules::Answer::CrossedBounds { column: _ } => 4,
        rules::Answer::FalseEmptyRow { row: _ } => 5,
        rules::Answer::StartNotFinite => 6,
        rules::Answer::SlackOutside => 7,
        rules::Answer::Unbounded {
            objective: _,
            steps: _,
        } => 20,
        rules::Answer::Spent {
            objective: _,
            steps: _,
        } => 21,
        rules::Answer::NotFinite {
            objective: _,
            steps: _,
        } => 23,
        rules::Answer::Singular {
            objective: _,
            steps: _,
        } => 25,
        rules::Answer::Infeasible {
            objective: _,
            steps: _,
            row: _,
        } => 26,
        rules::Answer::ValueRejected {
            objective: _,
            steps: _,
            value: _,
            excess: _,
        } => 24,
        rules::Answer::RowRejected {
            objective: _,
            steps: _,
            row: _,
            excess: _,
        } => 24,
    }
}

// The answer after the final check. 02: "Every caller and answer 24 carries the excess".
fn told(c: rules::Checked, objective: f64, steps: usize) -> rules::Answer
    ensures { result ≡ Solve.checked_answer (counted objective steps) c }
{
    match c {
        rules::Checked::Passed(excess) => rules::Answer::Optimal {
            objective,
            steps,
            excess,
        },
        rules::Checked::Value { value, excess } => rules::Answer::ValueRejected {
            objective,
            steps,
            value,
            excess,
        },
        rules::Checked::Row { row, excess } => rules::Answer::RowRejected {
            objective,
            steps,
            row,
            excess,
        },
    }
}

// The answer by why a run ends. The values are reckoned in scratch from their sections, and the final check reads them
// there.
fn answer_of(
    n: usize,
    tolerance: f64,
    lowers: &[f64],
    uppers: &[f64],
    starts: &[usize],
    cols: &[usize],
    coeffs: &[f64],
    ops: &[u8],
    rhs: &[f64],
    kept: &[usize],
    numbers: &[usize],
    doubles: &[f64],
    why: rules::Stop,
    objective: f64,
    steps: usize,
    xs: &mut [f64; doubles::VARS],
) -> rules::Answer
    requires answers { Answers (checked_of n tolerance lowers.now uppers.now starts.now cols.now coeffs.now ops.now
        rhs.now kept.now) (packed numbers.now doubles.now) }
    requires kept_at_in_bounds { (kept_at ≤ length numbers.now) × (objective_at ≤ length doubles.now) × (length xs.old ≡ vars) }
    ensures { (result ≡ Solve.answer_of (checked_of n tolerance lowers.now uppers.now
        starts.now cols.now coeffs.now ops.now rhs.now
        kept.now) (ended why (state_of (packed numbers.now doubles.now) 0 objective
        steps))) × (xs.new ≡ over (values_of (sizes_of n kept.now)
        (packed numbers.now doubles.now)) xs.old) }
{
    check_final::values_into(
        n,
        kept,
        &numbers[state::VAR_STATES..state::VAR_STATES_END],
        &doubles[state::BASIC_VAR_VALS..state::BASIC_VAR_VALS_END],
        &doubles[state::NB_VAR_VALS..state::NB_VAR_VALS_END],
        xs,
    );
    match why {
        rules::Stop::Finished => told(
            check_final::final_check(
                n, tolerance, lowers, uppers, starts, cols, coeffs, ops, rhs, kept, xs,
            ),
            objective,
            steps,
        ),
        rules::Stop::Spent => rules::Answer::Spent { objective, steps },
        rules::Stop::Unbounded => rules::Answer::Unbounded { objective, steps },
        rules::Stop::NotFinite => rules::Answer::NotFinite { objective, steps },
        rules::Stop::Singular => rules::Answer::Singular { objective, steps },
        rules::Stop::Infeasible(row) => rules::Answer::Infeasible {
            objective,
            steps,
            row,
        },
    }
}

// 01: "Status 0 is Optimal and writes values, slacks last. 20 to 24 leave the values array alone", and so do 25
// and 26.
fn values_after(status: usize, count: usize, xs: &[f64; doubles::VARS], values: &mut [f64])
    requires { (count ≤ vars) × (count ≤ length values.old) }
    ensures { values.new ≡ elim (eqb status 0)
        [ true ↦ over (table count (λ v. xs.now ! v)) values.old | false ↦ values.old ] }
{
    if status != 0 {
        return;
    }
    check_final::write_values(values, xs, count);
}

// The numbers of the kept rows, over the front of their section.
fn write_kept(kept: &[usize], to: &mut [usize])
    requires { length kept.now ≤ length to.old }
    ensures { to.new ≡ over kept.now to.old }
{
    for (r, &i) in kept.iter().enumerate() {
        to[r] = i;
    }
}

fn bit_of(b: bool) -> usize
    ensures { result ≡ bit b }
{
    if b {
        return 1;
    }
    0
}

// Kept rows, eta columns, eta entries, steps, status, whether there is a factor, and factorings, so that a later call
// can go on from the workspace.
fn write_counts(
    rows: usize,
    eta_columns: usize,
    eta_entries: usize,
    steps: usize,
    status: usize,
    factored: bool,
    factorings: usize,
    counts: &mut [usize],
)
    requires { count_cells ≤ length counts.old }
    ensures { counts.new ≡ over (rows ∷ eta_columns ∷ eta_entries ∷ steps ∷ status ∷ bit factored ∷
        factorings ∷ []) counts.old }
{
    let there = bit_of(factored);
    counts[0] = rows;
    counts[1] = eta_columns;
    counts[2] = eta_entries;
    counts[3] = steps;
    counts[4] = status;
    counts[5] = there;
    counts[6] = factorings;
}

// The end of a solve. The values stay in scratch until the final check has passed. The factor's arrays F and G aren't
// lent: they are what the run left.
pub fn close(
    n: usize,
    tolerance: f64,
    lowers: &[f64],
    uppers: &[f64],
    starts: &[usize],
    cols: &[usize],
    coeffs: &[f64],
    ops: &[u8],
    rhs: &[f64],
    kept: &[usize],
    why: rules::Stop,
    at: state::Tally,
    values: &mut [f64],
    numbers: &mut [usize],
    doubles: &mut [f64],
) -> rules::Answer
    requires { Closes (checked_of n tolerance lowers.now uppers.now starts.now cols.now coeffs.now ops.now
        rhs.now kept.now) values.old numbers.old doubles.old at }
    ensures { (F : List ℕ) (G : List Float) → answered result values.new numbers.new
        doubles.new F G ≡ handed
        (Solve.close (checked_of n tolerance lowers.now uppers.now starts.now
        cols.now coeffs.now ops.now rhs.now kept.now)
        (memory_in values.old numbers.old doubles.old F G)
        (ended why (state_in numbers.old doubles.old F G at)))
        (past_of numbers.old doubles.old) }
{
    let used = numbers[state::ETA_STARTS + at.eta_count];
    let mut xs = [0.0; doubles::VARS];
    let a = answer_of(
        n,
        tolerance,
        lowers,
        uppers,
        starts,
        cols,
        coeffs,
        ops,
        rhs,
        kept,
        numbers,
        doubles,
        why,
        at.objective,
        at.steps,
        &mut xs,
    );
    let status = number_of(a);
    values_after(status, n + kept.len(), &xs, values);
    write_kept(kept, &mut numbers[state::KEPT..state::KEPT_END]);
    write_counts(
        kept.len(),
        at.eta_count,
        used,
        at.steps,
        status,
        at.factored,
        at.factorings,
        &mut numbers[state::COUNTS..state::COUNTS_END],
    );
    doubles[state::OBJECTIVE] = at.objective;
    a
}
