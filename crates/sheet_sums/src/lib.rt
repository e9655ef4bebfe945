// The audit sheet's sums and counts, worked out from the lent arrays. Each is one loop and reads only.
#![tactic(auto)]

ghost use Rattle.std.specs.Prelude.{◌≡◌, not, ◌+◌, ◌*◌, ◌≤◌, ◌<◌, length};
ghost use Rattle.doubles.specs.Limits.{max_rows, max_columns, max_coefficient, max_multiplier, max_right_side, max_bound, max_d};
ghost use Rattle.doubles.specs.Lists.{◌#◌};
ghost use Rattle.sheet_rules.specs.Sum.{◌‼◌, sum, dot, count};
ghost use Rattle.sheet_rules.specs.Sheet.{holds, wrong, outside, term, lacks};
ghost use Rattle.sheet_terms.specs.Small.{Small};

use sheet_terms::{bit, holds, lacks, outside, term, wrong};

// The sum of the products of two arrays' first n numbers: costs and amounts, multipliers and right sides.
pub fn dot(n: usize, xs: &[i64], ys: &[i64]) -> i64
    requires { (n ≤ max_columns) × Small max_multiplier n xs.now × Small max_right_side n ys.now }
    ensures { result ≡ dot n (λ k. xs.now ‼ k) (λ k. ys.now ‼ k) }
{
    let mut total: i64 = 0;
    for k in 0..n {
        total += xs[k] * ys[k];
    }
    total
}

// A column's coefficients times the multipliers.
pub fn column_sum(rows: usize, columns: usize, column: usize, coefs: &[i64], mults: &[i64]) -> i64
    requires { (rows ≤ max_rows) × (column < columns) × Small max_coefficient (rows * columns) coefs.now × Small
        max_multiplier rows mults.now }
    ensures { result ≡ dot rows (λ i. coefs.now ‼ (i * columns + column)) (λ i. mults.now ‼ i) }
{
    let mut total: i64 = 0;
    for i in 0..rows {
        total += coefs[i * columns + column] * mults[i];
    }
    total
}

// The columns' part of B, at the prices d.
pub fn column_terms(
    columns: usize,
    lowers: &[i64],
    uppers: &[i64],
    lower_marks: &[u8],
    upper_marks: &[u8],
    d: &[i64],
) -> i64
    requires { (columns ≤ max_columns) × Small max_bound columns lowers.now × Small max_bound columns uppers.now ×
        (columns ≤ length lower_marks.now) × (columns ≤ length upper_marks.now) × Small max_d columns d.now }
    ensures { result ≡ sum columns (λ j. term (d.now ‼ j) (lowers.now ‼ j) (uppers.now ‼ j)
        (lower_marks.now # j) (upper_marks.now # j)) }
{
    let mut total: i64 = 0;
    for j in 0..columns {
        total += term(d[j], lowers[j], uppers[j], lower_marks[j], upper_marks[j]);
    }
    total
}

// The rows that their activities r break.
pub fn broken_rows(rows: usize, rhs: &[i64], ops: &[u8], r: &[i64]) -> i64
    requires { (rows ≤ max_rows) × (rows ≤ length rhs.now) × (rows ≤ length ops.now) × (rows ≤ length r.now) }
    ensures { result ≡ count rows (λ i. not (holds (ops.now # i) (r.now ‼ i)
        (rhs.now ‼ i))) }
{
    let mut total: i64 = 0;
    for i in 0..rows {
        total += bit(!holds(ops[i], r[i], rhs[i]));
    }
    total
}

// The amounts out of bounds.
pub fn outside_amounts(
    columns: usize,
    lowers: &[i64],
    uppers: &[i64],
    lower_marks: &[u8],
    upper_marks: &[u8],
    amounts: &[i64],
) -> i64
    requires { (columns ≤ max_columns) × (columns ≤ length lowers.now) × (columns ≤ length uppers.now) ×
        (columns ≤ length lower_marks.now) × (columns ≤ length upper_marks.now) ×
        (columns ≤ length amounts.now) }
    ensures { result ≡ count columns (λ j. outside (amounts.now ‼ j) (lowers.now ‼ j)
        (uppers.now ‼ j) (lower_marks.now # j) (upper_marks.now # j)) }
{
    let mut total: i64 = 0;
    for j in 0..columns {
        total += bit(outside(
            amounts[j],
            lowers[j],
            uppers[j],
            lower_marks[j],
            upper_marks[j],
        ));
    }
    total
}

// The multipliers with a wrong sign.
pub fn wrong_signs(rows: usize, ops: &[u8], mults: &[i64]) -> i64
    requires { (rows ≤ max_rows) × (rows ≤ length ops.now) × (rows ≤ length mults.now) }
    ensures { result ≡ count rows (λ i. wrong (ops.now # i) (mults.now ‼ i)) }
{
    let mut total: i64 = 0;
    for i in 0..rows {
        total += bit(wrong(ops[i], mults[i]));
    }
    total
}

// The absent bounds that the prices d need.
pub fn absent_needed(columns: usize, lower_marks: &[u8], upper_marks: &[u8], d: &[i64]) -> i64
    requires { (columns ≤ max_columns) × (columns ≤ length lower_marks.now) ×
        (columns ≤ length upper_marks.now) × (columns ≤ length d.now) }
    ensures { result ≡ count columns (λ j. lacks (d.now ‼ j) (lower_marks.now # j)
        (upper_marks.now # j)) }
{
    let mut total: i64 = 0;
    for j in 0..columns {
        total += bit(lacks(d[j], lower_marks[j], upper_marks[j]));
    }
    total
}
