// The audit sheet's terms, each of a few numbers, and the sum behind R.
#![tactic(auto)]

ghost use Rattle.std.specs.Prelude.{◌≡◌, ◌+◌, ◌≤◌, length, nat_abs};
ghost use Rattle.doubles.specs.Limits.{max_columns, max_coefficient, max_amount, max_bound};
ghost use Rattle.doubles.specs.Loop.{all};
ghost use Rattle.sheet_rules.specs.Sum.{◌‼◌, dot, bit};
ghost use Rattle.sheet_rules.specs.Sheet.{holds, wrong, outside, term, lacks, row_sum};
ghost use Rattle.sheet_rules.specs.Verdict.{is_zero};
ghost use Rattle.sheet_terms.specs.Small.{Small, far_d, block};

// The size of z, whatever z is.
pub fn size(z: i64) -> u64
    ensures { result ≡ nat_abs z }
{
    if z < 0 {
        let k = 0 - (z + 1);
        return (k as u64) + 1;
    }
    z as u64
}

// 1 for true.
pub fn bit(t: bool) -> i64
    ensures { result ≡ bit t }
{
    if t { 1 } else { 0 }
}

// Whether an activity keeps its row.
pub fn holds(op: u8, activity: i64, right: i64) -> bool
    ensures { result ≡ holds op activity right }
{
    match op {
        0 => activity <= right,
        1 => (activity <= right) & (right <= activity),
        _ => right <= activity,
    }
}

// Le with Y > 0, Ge with Y < 0.
pub fn wrong(op: u8, y: i64) -> bool
    ensures { result ≡ wrong op y }
{
    match op {
        0 => 0 < y,
        1 => false,
        _ => y < 0,
    }
}

// Whether an amount breaks a present bound.
pub fn outside(z: i64, low: i64, high: i64, lowmark: u8, highmark: u8) -> bool
    ensures { result ≡ outside z low high lowmark highmark }
{
    ((lowmark == 1) & (z < low)) | ((highmark == 1) & (high < z))
}

// Whether the bound that a price needs is absent.
pub fn lacks(d: i64, lowmark: u8, highmark: u8) -> bool
    ensures { result ≡ lacks d lowmark highmark }
{
    if 0 < d {
        return lowmark != 1;
    }
    if d < 0 {
        return highmark != 1;
    }
    false
}

// A column's term of B at a price.
pub fn term(d: i64, low: i64, high: i64, lowmark: u8, highmark: u8) -> i64
    requires { (nat_abs d ≤ far_d) × (nat_abs low ≤ max_bound) × (nat_abs high ≤ max_bound) }
    ensures { result ≡ term d low high lowmark highmark }
{
    if 0 < d {
        if lowmark == 1 {
            return d * low;
        }
        return 0;
    }
    if d < 0 {
        if highmark == 1 {
            return d * high;
        }
        return 0;
    }
    0
}

// So many coefficients are tested for 0 at once: `block` of specs/Small.antt.
const BLOCK: usize = 8;

// Whether the BLOCK coefficients from j on are all 0: their bits or-ed together are.
fn quiet(row: &[i64], j: usize) -> bool
    requires { j + block ≤ length row.now }
    ensures { result ≡ all block (λ k. is_zero (row.now ‼ (j + k))) }
{
    let mut bits: i64 = 0;
    for k in 0..BLOCK {
        bits |= row[j + k];
    }
    bits == 0
}

// The sum of a row's products up to `from`, gone on with up to `to`.
fn go_on(row: &[i64], amounts: &[i64], so_far: i64, from: usize, to: usize) -> i64
    requires { (from ≤ to) × (to ≤ length row.now) × (length row.now ≤ max_columns) × Small max_coefficient
        (length row.now) row.now × Small max_amount (length row.now) amounts.now ×
        (so_far ≡ dot from (λ k. row.now ‼ k) (λ k. amounts.now ‼ k)) }
    ensures { result ≡ dot to (λ k. row.now ‼ k) (λ k. amounts.now ‼ k) }
{
    let mut r = so_far;
    for j in from..to {
        r += row[j] * amounts[j];
    }
    r
}

// R of a row: the sum of its coefficients times the amounts. Nobody else sums a row.
// 02: "Let the sum behind R pass over stretches of zeros quickly." A row whose first three coefficients aren't 0 is
// taken for a full one, and summed with no test.
pub fn activity(row: &[i64], amounts: &[i64]) -> i64
    requires { (length row.now ≤ max_columns) × Small max_coefficient (length row.now) row.now × Small max_amount
        (length row.now) amounts.now }
    ensures { result ≡ row_sum row.now amounts.now }
{
    let n = row.len();
    if 3 <= n {
        if (row[0] != 0) & (row[1] != 0) & (row[2] != 0) {
            return go_on(row, amounts, 0, 0, n);
        }
    }
    let mut r: i64 = 0;
    let mut j: usize = 0;
    // A while: the cursor moves by a block's length, and what it leaves is summed from there.
    while j + BLOCK <= n {
        if !quiet(row, j) {
            r = go_on(row, amounts, r, j, j + BLOCK);
        }
        j += BLOCK;
    }
    go_on(row, amounts, r, j, n)
}

pub fn is_zero(z: i64) -> bool
    ensures { result ≡ is_zero z }
{
    z == 0
}
