// The stores of a fix and of an unfix: one exit each, no test. From minilp 0.2.2, src/solver.rs, fix_var and unfix_var,
// Apache-2.0, changed: every number is tested before any is stored, and the state is sections of two lent arrays.
#![tactic(auto)]

ghost use Rattle.std.specs.Prelude.{◌≡◌, Bool, List, ℕ, ◌<◌, length, Float};
ghost use Rattle.doubles.specs.Num.{◌⊕◌, ◌⊗◌};
ghost use Rattle.doubles.specs.Limits.{max_rows, max_columns};
ghost use Rattle.sparse.specs.Scattered.{sv};
ghost use Rattle.rules.specs.Parts.{bounded};
ghost use Rattle.state.specs.Packed.{state_in, Sized, kept_at};
ghost use Rattle.state.specs.declared.Tally.{Tally};
ghost use Rattle.step_numbers.specs.Lent.{Listing};
ghost use Rattle.step_store.specs.Lent.{Flips};
ghost use Rattle.fix_rules.specs.Fix.{marked, unmarked, shifted_by};

// docs/RULES-02.md: "A fixed column counts as at both bounds, whatever its value".
pub fn mark(numbers: &mut [usize], col: usize)
    requires { (length numbers.old ≡ kept_at) × (col < max_columns) }
    ensures { (D : List Float) (F : List ℕ) (G : List Float) (t : Tally) → state_in numbers.new D F G t
        ≡ marked (state_in numbers.old D F G t) col }
{
    numbers[state::FLAGS + col] = cells::pack_flags(rules::NonBasicVarState {
        at_min: true,
        at_max: true,
        fixed: true,
    });
}

// "The column's flags become those of equality with its bounds, without the mark".
pub fn unmark(
    numbers: &mut [usize],
    doubles: &[f64],
    n: usize,
    lowers: &[f64],
    uppers: &[f64],
    ops: &[u8],
    kept: &[usize],
    col: usize,
)
    requires { Flips (bounded n lowers.now uppers.now ops.now kept.now) numbers.old doubles.now col }
    ensures { (F : List ℕ) (G : List Float) (t : Tally) → state_in numbers.new doubles.now F
        G t ≡ unmarked (bounded n lowers.now uppers.now ops.now kept.now)
        (state_in numbers.old doubles.now F G t) col }
{
    let var = numbers[state::NB_VARS + col];
    let x = doubles[state::NB_VAR_VALS + col];
    numbers[state::FLAGS + col] = step_store::flags_at(n, lowers, uppers, ops, kept, var, x);
}

// "the objective gains diff * price".
pub fn new_objective(objective: f64, price: f64, diff: f64) -> f64
    ensures { result ≡ objective ⊕ diff ⊗ price }
{
    objective + diff * price
}

// A non-basic fix: "each listed row's basic value loses diff * its entry", "Then the value is stored, and the mark".
// The column of the variable at place `col` is solved. No step is counted.
pub fn store_shift(
    numbers: &mut [usize],
    doubles: &mut [f64],
    at: state::Tally,
    values: &[f64; doubles::PLACES],
    list: &[usize; doubles::PLACES],
    count: usize,
    col: usize,
    value: f64,
) -> state::Tally
    requires { Sized numbers.old doubles.old × (col < max_columns) × Listing max_rows count list.now }
    ensures { (F : List ℕ) (G : List Float) (m : List Bool) → state_in numbers.new
        doubles.new F G result ≡ shifted_by (state_in numbers.old doubles.old F G at) col
        (sv values.now m list.now count) value }
{
    let diff = value - doubles[state::NB_VAR_VALS + col];
    let objective = new_objective(at.objective, doubles[state::PRICES + col], diff);
    step_store::store_moved(
        &mut doubles[state::BASIC_VAR_VALS..state::BASIC_VAR_VALS_END],
        values,
        list,
        count,
        diff,
    );
    doubles[state::NB_VAR_VALS + col] = value;
    mark(numbers, col);
    state::Tally {
        eta_count: at.eta_count,
        objective,
        steps: at.steps,
        factored: at.factored,
        factorings: at.factorings,
    }
}
