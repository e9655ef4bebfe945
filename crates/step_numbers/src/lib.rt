// The new numbers of a step, and the tests that every one is finite: they only read. From minilp 0.2.2, src/solver.rs,
// pivot and update_primal_sq_norms, Apache-2.0, changed: a number is tested before any is stored, the vectors and the
// state are lent arrays, and the helper is reckoned by the caller.
#![tactic(auto)]

ghost use Rattle.std.specs.Prelude.{◌≡◌, Bool, List, [], ◌≤◌, length};
ghost use Rattle.doubles.specs.Limits.{places};
ghost use Rattle.sparse.specs.Scattered.{Pat, sv, sv_of, sq_norm, Within};
ghost use Rattle.rules.specs.Plan.{Problem};
ghost use Rattle.rules.specs.Parts.{state_of};
ghost use Rattle.rules.specs.Pivot.{stores_finite, new_objective, moved_val, flip_finite, new_val, new_price, eta_finite, numbers_finite};
ghost use Rattle.step_numbers.specs.New.{val_by, price_by, norm_by, norm_at};
ghost use Rattle.step_numbers.specs.Lent.{numbers_of, Listing};

pub fn new_objective(objective: f64, e: rules::Entering, diff: f64) -> f64
    ensures { result ≡ new_objective (state_of (numbers_of [] [] []) 0 objective 0) e diff }
{
    objective + e.price * diff
}

// The basic value of row r after an exchange: the entering value in its row, else moved by the difference.
pub fn new_val(row: usize, value: f64, diff: f64, r: usize, x: f64, a: f64) -> f64
    ensures { result ≡ val_by row value diff r x a }
{
    if r == row { value } else { x - diff * a }
}

pub fn new_price(col: usize, pivot_obj: f64, j: usize, x: f64, a: f64) -> f64
    ensures { result ≡ price_by col pivot_obj j x a }
{
    if j == col {
        -pivot_obj
    } else {
        x - pivot_obj * a
    }
}

// Forrest and Goldfarb's update. The two terms are added first, then to the norm.
pub fn new_norm(
    col: usize,
    sq: f64,
    pivot: f64,
    pivot_sq: f64,
    j: usize,
    x: f64,
    a: f64,
    h: f64,
) -> f64
    ensures { result ≡ norm_by col sq pivot pivot_sq j x a h }
{
    if j == col {
        sq / pivot_sq
    } else {
        x + (-2.0 * a * h / pivot + sq * a * a / pivot_sq)
    }
}

// ---- the tests. 01: "every number to be stored must be finite"

// The basic values where a column that stays non-basic moves by `diff`.
pub fn moved_finite(
    basic_var_vals: &[f64],
    values: &[f64; doubles::PLACES],
    list: &[usize; doubles::PLACES],
    count: usize,
    diff: f64,
) -> bool
    requires { Listing (length basic_var_vals.now) count list.now }
    ensures { (m : List Bool) → result ≡ stores_finite (sv values.now m list.now count)
        (moved_val (numbers_of basic_var_vals.now [] [])
        (sv values.now m list.now count) diff) }
{
    for &r in &list[..count] {
        if !doubles::is_finite(basic_var_vals[r] - diff * values[r]) {
            return false;
        }
    }
    true
}

// The basic values of an exchange.
fn vals_finite(
    basic_var_vals: &[f64],
    values: &[f64; doubles::PLACES],
    list: &[usize; doubles::PLACES],
    count: usize,
    value: f64,
    diff: f64,
    row: usize,
) -> bool
    requires { Listing (length basic_var_vals.now) count list.now }
    ensures { (m : List Bool) → result ≡ stores_finite (sv values.now m list.now count)
        (new_val (numbers_of basic_var_vals.now [] []) (sv values.now m list.now count)
        value diff row) }
{
    for &r in &list[..count] {
        let x = new_val(row, value, diff, r, basic_var_vals[r], values[r]);
        if !doubles::is_finite(x) {
            return false;
        }
    }
    true
}

// The prices of the row's listed places.
fn prices_finite(
    prices: &[f64],
    values: &[f64; doubles::PLACES],
    list: &[usize; doubles::PLACES],
    count: usize,
    e: rules::Entering,
    pivot: f64,
) -> bool
    requires { Listing (length prices.now) count list.now }
    ensures { (m : List Bool) → result ≡ stores_finite (sv values.now m list.now count)
        (new_price (numbers_of [] prices.now []) e pivot
        (sv values.now m list.now count)) }
{
    let col = e.col;
    let pivot_obj = e.price / pivot;
    for &j in &list[..count] {
        let old = prices[j];
        let price = new_price(col, pivot_obj, j, old, values[j]);
        if !doubles::is_finite(price) {
            return false;
        }
    }
    true
}

// The norms of a vector's listed places, of either kind. `sq` is the sum of squares that they are moved by, and `col` the
// place that it is stored at, over the pivot's square.
pub fn norms_finite(
    norms: &[f64],
    values: &[f64; doubles::PLACES],
    list: &[usize; doubles::PLACES],
    count: usize,
    helper: &[f64; doubles::PLACES],
    col: usize,
    sq: f64,
    pivot: f64,
) -> bool
    requires { Listing (length norms.now) count list.now }
    ensures { (m : List Bool) → result ≡ stores_finite (sv values.now m list.now count)
        (norm_at col sq pivot norms.now values.now helper.now) }
{
    let pivot_sq = pivot * pivot;
    for &j in &list[..count] {
        let x = new_norm(col, sq, pivot, pivot_sq, j, norms[j], values[j], helper[j]);
        if !doubles::is_finite(x) {
            return false;
        }
    }
    true
}

// The entries of the eta column, where one is to be pushed.
pub fn eta_finite(
    values: &[f64; doubles::PLACES],
    list: &[usize; doubles::PLACES],
    count: usize,
    row: usize,
    pivot: f64,
) -> bool
    requires { (count ≤ places) × Within places count list.now }
    ensures { (m : List Bool) → result ≡ eta_finite (sv values.now m list.now count) row pivot }
{
    for &r in &list[..count] {
        let x = basis_store::eta_entry(row, pivot, r, values[r]);
        if !doubles::is_finite(x) {
            return false;
        }
    }
    true
}

// 01: a flip stores its new value, the basic values and the objective.
pub fn flip_finite(
    basic_var_vals: &[f64],
    values: &[f64; doubles::PLACES],
    list: &[usize; doubles::PLACES],
    count: usize,
    objective: f64,
    e: rules::Entering,
    value: f64,
    diff: f64,
) -> bool
    requires { Listing (length basic_var_vals.now) count list.now }
    ensures { (P : Problem) (m : List Bool) → result ≡ flip_finite P
        (state_of (numbers_of basic_var_vals.now [] []) 0 objective 0) e
        (sv values.now m list.now count) value diff }
{
    if !doubles::is_finite(new_objective(objective, e, diff)) {
        return false;
    }
    if !doubles::is_finite(value) {
        return false;
    }
    moved_finite(basic_var_vals, values, list, count, diff)
}

// An exchange stores the objective, the basic values, the leaving value, prices and norms; then its eta column, or the
// new basis' factor. `sq` is the column's sum of squares, which the norms' store needs again.
pub fn numbers_finite(
    basic_var_vals: &[f64],
    prices: &[f64],
    norms: &[f64],
    values: &[f64; doubles::PLACES],
    list: &[usize; doubles::PLACES],
    count: usize,
    row_values: &[f64; doubles::PLACES],
    row_list: &[usize; doubles::PLACES],
    row_count: usize,
    helper: &[f64; doubles::PLACES],
    sq: f64,
    objective: f64,
    e: rules::Entering,
    value: f64,
    diff: f64,
    row: usize,
    pivot: f64,
    leaving: f64,
) -> bool
    requires listing { Listing (length basic_var_vals.now) count list.now ×
        ((m : List Bool) → sq ≡ sq_norm (sv values.now m list.now count)) }
    requires listing_2 { Listing (length prices.now) row_count row_list.now × Listing (length norms.now) row_count
        row_list.now }
    ensures { (P : Problem) (m rm : List Bool) (p : Pat) → result ≡ numbers_finite P
        (state_of (numbers_of basic_var_vals.now prices.now norms.now) 0 objective 0) e
        (sv values.now m list.now count)
        (sv row_values.now rm row_list.now row_count) (sv_of helper.now p) value
        diff row pivot leaving }
{
    if !doubles::is_finite(new_objective(objective, e, diff)) {
        return false;
    }
    if !vals_finite(basic_var_vals, values, list, count, value, diff, row) {
        return false;
    }
    if !doubles::is_finite(leaving) {
        return false;
    }
    if !prices_finite(prices, row_values, row_list, row_count, e, pivot) {
        return false;
    }
    norms_finite(
        norms,
        row_values,
        row_list,
        row_count,
        helper,
        e.col,
        sq + 1.0,
        pivot,
    )
}
