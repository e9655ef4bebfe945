// The multiplier of each row of a plan, from the prices and maps that a run left (02, Ask 3).
#![tactic(auto)]

ghost use Rattle.std.specs.Prelude.{◌≡◌, [], ◌<◌, ◌≤◌, length};
ghost use Rattle.doubles.specs.Limits.{max_rows};
ghost use Rattle.doubles.specs.Lists.{over};
ghost use Rattle.state.specs.Memory.{memory_in};
ghost use Rattle.whole_multipliers.specs.Rows.{before, slack_price, multiplier_at, first_multiplier, multipliers, rows_of, Long};

// How many of the rows before row i are kept.
fn kept_before(starts: &[usize], i: usize) -> usize
    requires { (i ≤ max_rows) × (i < length starts.now) }
    ensures { result ≡ before (rows_of 0 0 starts.now []) i }
{
    let mut k = 0;
    for j in 0..i {
        if starts[j] != starts[j + 1] {
            k += 1;
        }
    }
    k
}

// 02: "the price of the row's slack, 0 for a basic or dropped one".
fn slack_price(
    columns: usize,
    rows: usize,
    starts: &[usize],
    ops: &[u8],
    numbers: &[usize],
    doubles: &[f64],
    i: usize,
) -> f64
    requires { Long columns rows starts.now ops.now numbers.now doubles.now × (i < rows) }
    ensures { result ≡ slack_price (rows_of columns rows starts.now ops.now)
        (memory_in [] numbers.now doubles.now [] []) i }
{
    if starts[i] == starts[i + 1] {
        return 0.0;
    }
    let slack = columns + kept_before(starts, i);
    let cell = numbers[state::VAR_STATES + slack];
    if cell < columns {
        return doubles[state::PRICES + cell];
    }
    0.0
}

pub fn row_multiplier(
    columns: usize,
    rows: usize,
    starts: &[usize],
    ops: &[u8],
    numbers: &[usize],
    doubles: &[f64],
    i: usize,
) -> whole_round::Rounded
    requires { Long columns rows starts.now ops.now numbers.now doubles.now × (i < rows) }
    ensures { result ≡ multiplier_at (rows_of columns rows starts.now ops.now)
        (memory_in [] numbers.now doubles.now [] []) i }
{
    let price = slack_price(columns, rows, starts, ops, numbers, doubles, i);
    whole_round::multiplier(ops[i], price)
}

// The first row whose multiplier isn't whole, and `rows` where each is.
pub fn first_multiplier(
    columns: usize,
    rows: usize,
    starts: &[usize],
    ops: &[u8],
    numbers: &[usize],
    doubles: &[f64],
) -> usize
    requires { Long columns rows starts.now ops.now numbers.now doubles.now }
    ensures { result ≡ first_multiplier (rows_of columns rows starts.now ops.now)
        (memory_in [] numbers.now doubles.now [] []) }
{
    for i in 0..rows {
        let r = row_multiplier(columns, rows, starts, ops, numbers, doubles, i);
        if !whole_round::is_whole(r) {
            return i;
        }
    }
    rows
}

pub fn write_multipliers(
    columns: usize,
    rows: usize,
    starts: &[usize],
    ops: &[u8],
    numbers: &[usize],
    doubles: &[f64],
    mults: &mut [i64],
)
    requires { Long columns rows starts.now ops.now numbers.now doubles.now × (rows ≤ length mults.old) }
    ensures { mults.new ≡ over (multipliers
        (rows_of columns rows starts.now ops.now)
        (memory_in [] numbers.now doubles.now [] [])) mults.old }
{
    for i in 0..rows {
        let r = row_multiplier(columns, rows, starts, ops, numbers, doubles, i);
        mults[i] = whole_round::number_of(r);
    }
}
