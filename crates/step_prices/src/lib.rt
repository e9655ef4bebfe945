// The ratio on prices of a dual step: two passes over the leaving row's columns.
// From minilp 0.2.2, src/solver.rs, choose_entering_col_dual, Apache-2.0, changed: the numbers of the answer are those
// that an exchange needs, and a quotient that isn't finite stops the step.
#![tactic(auto)]

ghost use Rattle.std.specs.Prelude.{◌≡◌, Bool, List};
ghost use Rattle.sparse.specs.Scattered.{sv};
ghost use Rattle.rules.specs.Plan.{flags_of};
ghost use Rattle.rules.specs.DualRatio.{leaving_rises, may_move, eligible_still, test_by, dual_pass_two, dual_ratio_by};
ghost use Rattle.rules.specs.DualRatio as DualRatio;
ghost use Rattle.step_prices.specs.Lent.{priced_of, columns_of, Passing, Pricing};
ghost use Rattle.step_prices.specs.Parts.{shrunk, max_step_of, taken, exchange_by};

// No bound is in the way of a column that rises, or falls.
fn may_move(rises: bool, f: rules::NonBasicVarState) -> bool
    ensures { result ≡ may_move rises f }
{
    if rises {
        return !f.at_max;
    }
    !f.at_min
}

// 02, Ask 8: it "has a row coefficient of size at least EPS and isn't already at the bound in the way of the move".
// `up`: the leaving variable rises.
fn eligible(up: bool, f: rules::NonBasicVarState, a: f64) -> bool
    ensures { result ≡ DualRatio.eligible up f a }
{
    ((doubles::EPS <= a) & may_move(!up, f)) | ((a <= -doubles::EPS) & may_move(up, f))
}

// docs/RULES-02.md, Ask 9: "there is no move, so no bound is in the way: every column with a coefficient of size at
// least EPS and no fixed mark is eligible".
fn eligible_still(f: rules::NonBasicVarState, a: f64) -> bool
    ensures { result ≡ eligible_still f a }
{
    (doubles::EPS <= doubles::abs(a)) & !f.fixed
}

// The test of a step whose leaving variable stands still, rises, or falls.
fn lets_in(still: bool, up: bool, f: rules::NonBasicVarState, a: f64) -> bool
    ensures { result ≡ test_by still up f a }
{
    if still {
        return eligible_still(f, a);
    }
    eligible(up, f, a)
}

// The price counts as 0.0 where its sign is the wrong one for the bound that the column is at. Else it is the
// difference from 0.0, which is the price bit for bit.
fn clamped(f: rules::NonBasicVarState, price: f64) -> f64
    ensures { result ≡ DualRatio.clamped f price }
{
    let at_min = f.at_min;
    let at_max = f.at_max;
    if (at_min & (price < 0.0)) | (at_max & (0.0 < price)) {
        return 0.0;
    }
    price - 0.0
}

// Pass one uses (size of clamped price + EPS) / size of coefficient, strictly smaller. "A quotient of an eligible
// column that isn't finite: 23", here None: where this one is finite, so is pass two's.
fn shrink(still: bool, up: bool, cell: usize, price: f64, a: f64, step: f64) -> Option<f64>
    ensures { result ≡ shrunk (test_by still up) (flags_of cell) price a step }
{
    let f = cells::read_flags(cell);
    if lets_in(still, up, f, a) {
        let quotient = (doubles::abs(clamped(f, price)) + doubles::EPS) / doubles::abs(a);
        if doubles::is_finite(quotient) {
            if quotient < step {
                return Some(quotient);
            }
            return Some(step);
        }
        return None;
    }
    Some(step)
}

fn pass_one(
    still: bool,
    up: bool,
    prices: &[f64],
    flags: &[usize],
    values: &[f64; doubles::PLACES],
    list: &[usize; doubles::PLACES],
    count: usize,
) -> Option<f64>
    requires { Passing (priced_of prices.now flags.now) list.now count }
    ensures { (m : List Bool) → result ≡ max_step_of (priced_of prices.now flags.now)
        (test_by still up) (sv values.now m list.now count) }
{
    let mut step = doubles::infinity();
    for &c in &list[..count] {
        step = shrink(still, up, flags[c], prices[c], values[c], step)?;
    }
    Some(step)
}

// Pass two takes size of clamped price / size of coefficient <= max_step, strictly largest coefficient size. The size
// is asked first: most columns are settled without a division.
fn takes(still: bool, up: bool, cell: usize, price: f64, a: f64, max_step: f64, best: f64) -> bool
    ensures { result ≡ taken (test_by still up) (flags_of cell) price a max_step best }
{
    let size = doubles::abs(a);
    if best < size {
        let f = cells::read_flags(cell);
        if lets_in(still, up, f, a) {
            return doubles::abs(clamped(f, price)) / size <= max_step;
        }
        return false;
    }
    false
}

// The place of the entering column in the list, and `count` where there is none.
fn pass_two(
    still: bool,
    up: bool,
    prices: &[f64],
    flags: &[usize],
    values: &[f64; doubles::PLACES],
    list: &[usize; doubles::PLACES],
    count: usize,
    max_step: f64,
) -> usize
    requires { Passing (priced_of prices.now flags.now) list.now count }
    ensures { (m : List Bool) → result ≡ (dual_pass_two (priced_of prices.now flags.now)
        (test_by still up) (sv values.now m list.now count) max_step).at }
{
    let mut at = count;
    let mut best = -doubles::infinity();
    for (k, &c) in list[..count].iter().enumerate() {
        let a = values[c];
        if takes(still, up, flags[c], prices[c], a, max_step, best) {
            at = k;
            best = doubles::abs(a);
        }
    }
    at
}

// The column travels with its price, the size that won and the size of its move.
fn exchange(col: usize, price: f64, value: f64, from: f64, to: f64, pivot: f64) -> rules::DualRatio
    ensures { result ≡ exchange_by col price value from to pivot }
{
    let diff = (from - to) / pivot;
    let entering = rules::Entering {
        col,
        price,
        score: doubles::abs(pivot),
        distance: doubles::abs(diff),
    };
    rules::DualRatio::Exchange {
        entering,
        value: value + diff,
        diff,
        pivot,
    }
}

// 02, Ask 8: "the entering column is chosen by a two-pass rule like the primal one, on prices"; 26 where there is none.
// `still`: 02, Ask 9, the leaving variable is fixed where it stands.
pub fn dual_ratio(
    l: rules::LeavingVar,
    still: bool,
    basic_var_vals: &[f64],
    nb_var_vals: &[f64],
    prices: &[f64],
    flags: &[usize],
    values: &[f64; doubles::PLACES],
    list: &[usize; doubles::PLACES],
    count: usize,
) -> rules::DualRatio
    requires { Pricing (columns_of basic_var_vals.now nb_var_vals.now prices.now flags.now) l list.now
        count }
    ensures { (m : List Bool) → result ≡ dual_ratio_by
        (test_by still (leaving_rises (columns_of basic_var_vals.now nb_var_vals.now
        prices.now flags.now) l))
        (columns_of basic_var_vals.now nb_var_vals.now prices.now
        flags.now) l (sv values.now m list.now count) }
{
    let row = l.row;
    let from = basic_var_vals[row];
    let to = l.value;
    let up = from < to;
    let Some(step) = pass_one(still, up, prices, flags, values, list, count) else {
        return rules::DualRatio::NotFinite;
    };
    let at = pass_two(still, up, prices, flags, values, list, count, step);
    if at < count {
        let col = list[at];
        return exchange(col, prices[col], nb_var_vals[col], from, to, values[col]);
    }
    rules::DualRatio::Nothing
}
