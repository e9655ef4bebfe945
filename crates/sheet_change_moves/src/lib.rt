// How the counts' terms and B's move with an edit, and C, B and the counts by value. All functions read only.
#![tactic(auto)]

ghost use Rattle.std.specs.Prelude.{◌≡◌, not, ◌*◌, ◌≤◌, length, nat_abs, ◌-ℤ◌, ◌*ℤ◌};
ghost use Rattle.doubles.specs.Limits.{max_rows, max_columns, max_coefficient, max_amount, max_multiplier, max_bound, max_r, max_d};
ghost use Rattle.sheet_rules.specs.Sum.{bit};
ghost use Rattle.sheet_rules.specs.Sheet.{holds, outside, term, lacks};
ghost use Rattle.sheet_terms.specs.Small.{Small};
ghost use Rattle.sheet_change_moves.specs.After.{ColumnSmall, RowSmall, broken_change, terms_change, absent_change};

use sheet_terms::{bit, is_zero, term};

// C, B and the four counts.
#[derive(Clone, Copy)]
pub struct Totals {
    pub cost: i64,
    pub floor: i64,
    pub broken: i64,
    pub outside: i64,
    pub wrong: i64,
    pub absent: i64,
}

// A row's term of the first count.
pub fn broken(op: u8, activity: i64, right: i64) -> i64
    ensures { result ≡ bit (not (holds op activity right)) }
{
    bit(!sheet_terms::holds(op, activity, right))
}

// A column's of the last.
pub fn lacking(d: i64, lowmark: u8, highmark: u8) -> i64
    ensures { result ≡ bit (lacks d lowmark highmark) }
{
    bit(sheet_terms::lacks(d, lowmark, highmark))
}

// A column's of the second.
pub fn beyond(z: i64, low: i64, high: i64, lowmark: u8, highmark: u8) -> i64
    ensures { result ≡ bit (outside z low high lowmark highmark) }
{
    bit(sheet_terms::outside(z, low, high, lowmark, highmark))
}

// The change in the first count when every R moves by its coefficient times `by`.
pub fn broken_change(
    rows: usize,
    columns: usize,
    column: usize,
    by: i64,
    coefs: &[i64],
    rhs: &[i64],
    ops: &[u8],
    r: &[i64],
) -> i64
    requires { (rows ≤ max_rows) × ColumnSmall rows columns column coefs.now × (rows ≤ length rhs.now) ×
        (rows ≤ length ops.now) × Small max_r rows r.now × (nat_abs by ≤ 2 * max_amount) }
    ensures { result ≡ broken_change rows columns column by coefs.now rhs.now
        ops.now r.now }
{
    let mut total: i64 = 0;
    for i in 0..rows {
        let new = r[i] + coefs[i * columns + column] * by;
        total += broken(ops[i], new, rhs[i]) - broken(ops[i], r[i], rhs[i]);
    }
    total
}

// The change in a column's term of B when its D moves by minus its coefficient times `by`: none where that is 0.
fn term_change(coef: i64, by: i64, d: i64, low: i64, high: i64, lowmark: u8, highmark: u8) -> i64
    requires { (nat_abs coef ≤ max_coefficient) × (nat_abs by ≤ 2 * max_multiplier) × (nat_abs d ≤ max_d) ×
        (nat_abs low ≤ max_bound) × (nat_abs high ≤ max_bound) }
    ensures { result ≡ term (d -ℤ coef *ℤ by) low high lowmark highmark -ℤ term d low high lowmark highmark }
{
    if is_zero(coef) {
        return 0;
    }
    let new = d - coef * by;
    term(new, low, high, lowmark, highmark) - term(d, low, high, lowmark, highmark)
}

// The change in a column's term of the last count when its D moves so.
fn lacking_change(coef: i64, by: i64, d: i64, lowmark: u8, highmark: u8) -> i64
    requires { (nat_abs coef ≤ max_coefficient) × (nat_abs by ≤ 2 * max_multiplier) × (nat_abs d ≤ max_d) }
    ensures { result ≡ bit (lacks (d -ℤ coef *ℤ by) lowmark highmark) -ℤ bit (lacks d lowmark highmark) }
{
    if is_zero(coef) {
        return 0;
    }
    let new = d - coef * by;
    lacking(new, lowmark, highmark) - lacking(d, lowmark, highmark)
}

// The change in the columns' part of B when every D moves by minus its coefficient times `by`.
pub fn terms_change(
    rows: usize,
    columns: usize,
    row: usize,
    by: i64,
    coefs: &[i64],
    lowers: &[i64],
    uppers: &[i64],
    lower_marks: &[u8],
    upper_marks: &[u8],
    d: &[i64],
) -> i64
    requires { (columns ≤ max_columns) × RowSmall rows columns row coefs.now × Small max_bound columns lowers.now ×
        Small max_bound columns uppers.now × (columns ≤ length lower_marks.now) ×
        (columns ≤ length upper_marks.now) × Small max_d columns d.now × (nat_abs by ≤ 2 * max_multiplier) }
    ensures { result ≡ terms_change columns row by coefs.now lowers.now uppers.now
        lower_marks.now upper_marks.now d.now }
{
    let mut total: i64 = 0;
    for j in 0..columns {
        total += term_change(
            coefs[row * columns + j],
            by,
            d[j],
            lowers[j],
            uppers[j],
            lower_marks[j],
            upper_marks[j],
        );
    }
    total
}

// The change in the last count when every D moves so.
pub fn absent_change(
    rows: usize,
    columns: usize,
    row: usize,
    by: i64,
    coefs: &[i64],
    lower_marks: &[u8],
    upper_marks: &[u8],
    d: &[i64],
) -> i64
    requires { (columns ≤ max_columns) × RowSmall rows columns row coefs.now × (columns ≤ length lower_marks.now)
        × (columns ≤ length upper_marks.now) × Small max_d columns d.now × (nat_abs by ≤ 2 * max_multiplier) }
    ensures { result ≡ absent_change columns row by coefs.now lower_marks.now
        upper_marks.now d.now }
{
    let mut total: i64 = 0;
    for j in 0..columns {
        total += lacking_change(
            coefs[row * columns + j],
            by,
            d[j],
            lower_marks[j],
            upper_marks[j],
        );
    }
    total
}
