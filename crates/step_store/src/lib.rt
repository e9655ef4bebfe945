// The stores of a step, a flip's or an exchange's. From minilp 0.2.2, src/solver.rs, pivot and update_primal_sq_norms,
// Apache-2.0, changed: `new_numbers` has tested every number before any is stored, the vectors are lent arrays, the
// state is sections of two, and the helper is reckoned by the caller.
#![tactic(auto)]

ghost use Rattle.std.specs.Prelude.{◌≡◌, Bool, List, [], ℕ, ◌<◌, length};
ghost use Rattle.doubles.specs.Limits.{max_rows, max_columns, max_budget};
ghost use Rattle.sparse.specs.Scattered.{Pat, sv, sv_of, sq_norm};
ghost use Rattle.rules.specs.Parts.{bounded};
ghost use Rattle.rules.specs.Pivot.{stored, flags_at, moved_val, flipped, new_val, new_price, exchanged};
ghost use Rattle.state.specs.Packed.{packed, state_at, objective_at};
ghost use Rattle.basis_store.specs.Room.{Room};
ghost use Rattle.step_numbers.specs.New.{norm_at};
ghost use Rattle.step_numbers.specs.Lent.{numbers_of, Listing};
ghost use Rattle.step_store.specs.Halves.{numbers_stored, basis_stored, swapped, emptied};
ghost use Rattle.step_store.specs.Lent.{Bounded, Flips, Swaps};

// The basic values where a column that stays non-basic moves by `diff`, as a flip and 02's Ask 9 move it.
pub fn store_moved(
    basic_var_vals: &mut [f64],
    values: &[f64; doubles::PLACES],
    list: &[usize; doubles::PLACES],
    count: usize,
    diff: f64,
)
    requires { Listing (length basic_var_vals.old) count list.now }
    ensures { (m : List Bool) → basic_var_vals.new ≡ stored
        (sv values.now m list.now count)
        (moved_val (numbers_of basic_var_vals.old [] [])
        (sv values.now m list.now count) diff) basic_var_vals.old }
{
    for &r in &list[..count] {
        basic_var_vals[r] = basic_var_vals[r] - diff * values[r];
    }
}

// The basic values of an exchange.
fn store_vals(
    basic_var_vals: &mut [f64],
    values: &[f64; doubles::PLACES],
    list: &[usize; doubles::PLACES],
    count: usize,
    value: f64,
    diff: f64,
    row: usize,
)
    requires { Listing (length basic_var_vals.old) count list.now }
    ensures { (m : List Bool) → basic_var_vals.new ≡ stored
        (sv values.now m list.now count)
        (new_val (numbers_of basic_var_vals.old [] []) (sv values.now m list.now count)
        value diff row) basic_var_vals.old }
{
    for &r in &list[..count] {
        basic_var_vals[r] = step_numbers::new_val(
            row,
            value,
            diff,
            r,
            basic_var_vals[r],
            values[r],
        );
    }
}

fn store_prices(
    prices: &mut [f64],
    values: &[f64; doubles::PLACES],
    list: &[usize; doubles::PLACES],
    count: usize,
    e: rules::Entering,
    pivot: f64,
)
    requires { Listing (length prices.old) count list.now }
    ensures { (m : List Bool) → prices.new ≡ stored
        (sv values.now m list.now count)
        (new_price (numbers_of [] prices.old []) e pivot
        (sv values.now m list.now count)) prices.old }
{
    let col = e.col;
    let pivot_obj = e.price / pivot;
    for &j in &list[..count] {
        prices[j] = step_numbers::new_price(col, pivot_obj, j, prices[j], values[j]);
    }
}

// The norms of a vector's listed places, of either kind, as step_numbers::norms_finite tests them.
pub fn store_norms(
    norms: &mut [f64],
    values: &[f64; doubles::PLACES],
    list: &[usize; doubles::PLACES],
    count: usize,
    helper: &[f64; doubles::PLACES],
    col: usize,
    sq: f64,
    pivot: f64,
)
    requires { Listing (length norms.old) count list.now }
    ensures { (m : List Bool) → norms.new ≡ stored
        (sv values.now m list.now count)
        (norm_at col sq pivot norms.old values.now helper.now) norms.old }
{
    let pivot_sq = pivot * pivot;
    for &j in &list[..count] {
        norms[j] = step_numbers::new_norm(
            col, sq, pivot, pivot_sq, j, norms[j], values[j], helper[j],
        );
    }
}

// at_min and at_max of the variable v that stands at x, with no fixed mark.
pub fn flags_at(
    n: usize,
    lowers: &[f64],
    uppers: &[f64],
    ops: &[u8],
    kept: &[usize],
    v: usize,
    x: f64,
) -> usize
    requires { Bounded (bounded n lowers.now uppers.now ops.now kept.now) v }
    ensures { result ≡ flags_at (bounded n lowers.now uppers.now ops.now
        kept.now) v x }
{
    let at_min = x == cells::var_min(n, lowers, ops, kept, v);
    let at_max = x == cells::var_max(n, uppers, ops, kept, v);
    cells::pack_flags(rules::NonBasicVarState {
        at_min,
        at_max,
        fixed: false,
    })
}

// A flip: the entering variable moves to its other bound and stays where it is.
pub fn store_flip(
    numbers: &mut [usize],
    doubles: &mut [f64],
    at: state::Tally,
    n: usize,
    lowers: &[f64],
    uppers: &[f64],
    ops: &[u8],
    kept: &[usize],
    values: &[f64; doubles::PLACES],
    list: &[usize; doubles::PLACES],
    count: usize,
    e: rules::Entering,
    value: f64,
    diff: f64,
) -> state::Tally
    requires flips { Flips (bounded n lowers.now uppers.now ops.now kept.now) numbers.old doubles.old e.col }
    requires listing { Listing max_rows count list.now × (at.steps < max_budget) }
    ensures { (m : List Bool) → state_at numbers.new doubles.new result ≡ flipped
        (bounded n lowers.now uppers.now ops.now kept.now)
        (state_at numbers.old doubles.old at) e
        (sv values.now m list.now count) value diff }
{
    let col = e.col;
    let var = numbers[state::NB_VARS + col];
    store_moved(
        &mut doubles[state::BASIC_VAR_VALS..state::BASIC_VAR_VALS_END],
        values,
        list,
        count,
        diff,
    );
    doubles[state::NB_VAR_VALS + col] = value;
    numbers[state::FLAGS + col] = flags_at(n, lowers, uppers, ops, kept, var, value);
    let steps = at.steps + 1;
    state::Tally {
        eta_count: at.eta_count,
        objective: step_numbers::new_objective(at.objective, e, diff),
        steps,
        factored: at.factored,
        factorings: at.factorings,
    }
}

// The numbers of an exchange: basic values, prices and norms, one section after the other.
fn store_numbers(
    doubles: &mut [f64],
    values: &[f64; doubles::PLACES],
    list: &[usize; doubles::PLACES],
    count: usize,
    row_values: &[f64; doubles::PLACES],
    row_list: &[usize; doubles::PLACES],
    row_count: usize,
    helper: &[f64; doubles::PLACES],
    sq: f64,
    e: rules::Entering,
    x: state::Exchange,
)
    requires listing { Listing max_rows count list.now × ((m : List Bool) → sq ≡ sq_norm (sv values.now m list.now count)) }
    requires listing_2 { Listing max_columns row_count row_list.now × (length doubles.old ≡ objective_at) }
    ensures { (N : List ℕ) (m rm : List Bool) (p : Pat) → packed N doubles.new ≡ numbers_stored
        (packed N doubles.old) e (sv values.now m list.now count)
        (sv row_values.now rm row_list.now row_count) (sv_of helper.now p)
        x.value x.diff x.row x.pivot }
{
    let pivot = x.pivot;
    store_vals(
        &mut doubles[state::BASIC_VAR_VALS..state::BASIC_VAR_VALS_END],
        values,
        list,
        count,
        x.value,
        x.diff,
        x.row,
    );
    store_prices(
        &mut doubles[state::PRICES..state::PRICES_END],
        row_values,
        row_list,
        row_count,
        e,
        pivot,
    );
    store_norms(
        &mut doubles[state::NORMS..state::NORMS_END],
        row_values,
        row_list,
        row_count,
        helper,
        e.col,
        sq + 1.0,
        pivot,
    );
}

// The maps of an exchange, and what stands at the entering place: the leaving variable, its value and its flags.
fn store_basis(
    numbers: &mut [usize],
    doubles: &mut [f64],
    n: usize,
    lowers: &[f64],
    uppers: &[f64],
    ops: &[u8],
    kept: &[usize],
    col: usize,
    row: usize,
    leaving: f64,
)
    requires { Swaps (bounded n lowers.now uppers.now ops.now kept.now) numbers.old doubles.old col row }
    ensures { packed numbers.new doubles.new
        ≡ basis_stored (bounded n lowers.now uppers.now ops.now kept.now)
        (packed numbers.old doubles.old) col row leaving }
{
    let enters = numbers[state::NB_VARS + col];
    let leaves = numbers[state::BASIC_VARS + row];
    doubles[state::NB_VAR_VALS + col] = leaving;
    numbers[state::FLAGS + col] = flags_at(n, lowers, uppers, ops, kept, leaves, leaving);
    numbers[state::BASIC_VARS + row] = enters;
    numbers[state::VAR_STATES + enters] = cells::var_cell(n, rules::VarState::Basic(row));
    numbers[state::NB_VARS + col] = leaves;
    numbers[state::VAR_STATES + leaves] = cells::var_cell(n, rules::VarState::NonBasic(col));
}

// The entering variable becomes basic in the row, the leaving one stands at the entering place: the eta store and the
// factor stay. `sq` is the column's sum of squares.
fn store_swap(
    numbers: &mut [usize],
    doubles: &mut [f64],
    at: state::Tally,
    n: usize,
    lowers: &[f64],
    uppers: &[f64],
    ops: &[u8],
    kept: &[usize],
    values: &[f64; doubles::PLACES],
    list: &[usize; doubles::PLACES],
    count: usize,
    row_values: &[f64; doubles::PLACES],
    row_list: &[usize; doubles::PLACES],
    row_count: usize,
    helper: &[f64; doubles::PLACES],
    sq: f64,
    e: rules::Entering,
    x: state::Exchange,
) -> state::Tally
    requires swaps { Swaps (bounded n lowers.now uppers.now ops.now kept.now) numbers.old doubles.old e.col
        x.row }
    requires steps_lt_max_budget { at.steps < max_budget }
    requires listing { Listing max_rows count list.now × ((m : List Bool) → sq ≡ sq_norm (sv values.now m list.now count))
        × Listing max_columns row_count row_list.now }
    ensures { (m rm : List Bool) (p : Pat) → state_at numbers.new doubles.new result ≡ swapped
        (bounded n lowers.now uppers.now ops.now kept.now)
        (state_at numbers.old doubles.old at) e
        (sv values.now m list.now count)
        (sv row_values.now rm row_list.now row_count) (sv_of helper.now p) x }
{
    let col = e.col;
    let row = x.row;
    store_numbers(
        doubles, values, list, count, row_values, row_list, row_count, helper, sq, e, x,
    );
    store_basis(
        numbers, doubles, n, lowers, uppers, ops, kept, col, row, x.leaving,
    );
    let taken = at.steps + 1;
    state::Tally {
        eta_count: at.eta_count,
        objective: step_numbers::new_objective(at.objective, e, x.diff),
        steps: taken,
        factored: at.factored,
        factorings: at.factorings,
    }
}

// An exchange whose eta column fits: it is pushed.
pub fn store_exchange(
    numbers: &mut [usize],
    doubles: &mut [f64],
    at: state::Tally,
    n: usize,
    lowers: &[f64],
    uppers: &[f64],
    ops: &[u8],
    kept: &[usize],
    values: &[f64; doubles::PLACES],
    list: &[usize; doubles::PLACES],
    count: usize,
    row_values: &[f64; doubles::PLACES],
    row_list: &[usize; doubles::PLACES],
    row_count: usize,
    helper: &[f64; doubles::PLACES],
    sq: f64,
    e: rules::Entering,
    x: state::Exchange,
) -> state::Tally
    requires swaps { Swaps (bounded n lowers.now uppers.now ops.now kept.now) numbers.old doubles.old e.col
        x.row }
    requires room { Room (packed numbers.old doubles.old).etas at.eta_count count × (at.steps < max_budget) }
    requires listing { Listing max_rows count list.now × ((m : List Bool) → sq ≡ sq_norm (sv values.now m list.now count))
        × Listing max_columns row_count row_list.now }
    ensures { (m rm : List Bool) (p : Pat) → state_at numbers.new doubles.new result ≡ exchanged
        (bounded n lowers.now uppers.now ops.now kept.now)
        (state_at numbers.old doubles.old at) e
        (sv values.now m list.now count)
        (sv row_values.now rm row_list.now row_count) (sv_of helper.now p)
        x.value x.diff x.row x.pivot x.leaving }
{
    let t = store_swap(
        numbers, doubles, at, n, lowers, uppers, ops, kept, values, list, count, row_values,
        row_list, row_count, helper, sq, e, x,
    );
    let columns = at.eta_count;
    basis_store::push_eta(
        numbers, doubles, columns, values, list, count, x.row, x.pivot,
    );
    let eta_count = columns + 1;
    state::Tally {
        eta_count,
        objective: t.objective,
        steps: t.steps,
        factored: t.factored,
        factorings: t.factorings,
    }
}

// An exchange whose eta column doesn't fit, so that its basis was factored: the eta store is emptied and the factoring
// counted. The caller writes the factor.
pub fn store_bare(
    numbers: &mut [usize],
    doubles: &mut [f64],
    at: state::Tally,
    n: usize,
    lowers: &[f64],
    uppers: &[f64],
    ops: &[u8],
    kept: &[usize],
    values: &[f64; doubles::PLACES],
    list: &[usize; doubles::PLACES],
    count: usize,
    row_values: &[f64; doubles::PLACES],
    row_list: &[usize; doubles::PLACES],
    row_count: usize,
    helper: &[f64; doubles::PLACES],
    sq: f64,
    e: rules::Entering,
    x: state::Exchange,
) -> state::Tally
    requires swaps { Swaps (bounded n lowers.now uppers.now ops.now kept.now) numbers.old doubles.old e.col
        x.row }
    requires steps_lt_max_budget { (at.steps < max_budget) × (at.factorings < max_budget) }
    requires listing { Listing max_rows count list.now × ((m : List Bool) → sq ≡ sq_norm (sv values.now m list.now count))
        × Listing max_columns row_count row_list.now }
    ensures { (m rm : List Bool) (p : Pat) → state_at numbers.new doubles.new result ≡ emptied
        (bounded n lowers.now uppers.now ops.now kept.now)
        (state_at numbers.old doubles.old at) e
        (sv values.now m list.now count)
        (sv row_values.now rm row_list.now row_count) (sv_of helper.now p) x }
{
    let t = store_swap(
        numbers, doubles, at, n, lowers, uppers, ops, kept, values, list, count, row_values,
        row_list, row_count, helper, sq, e, x,
    );
    numbers[state::ETA_STARTS] = 0;
    let factorings = at.factorings + 1;
    state::Tally {
        eta_count: 0,
        objective: t.objective,
        steps: t.steps,
        factored: true,
        factorings,
    }
}
