// What an edit makes of C, B and the counts. A touched column or row is read once; all else here is over numbers, but
// for kinds 1 and 7, which run down a column and along a row. All functions read only.
#![tactic(auto)]

ghost use Rattle.std.specs.Prelude.{◌≡◌, ◌≤◌, length, nat_abs, ◌-ℤ◌};
ghost use Rattle.doubles.specs.Limits.{max_rows, max_columns, max_coefficient, max_bound, max_r, max_d};
ghost use Rattle.sheet_rules.specs.Words.{NumberIn};
ghost use Rattle.sheet_terms.specs.Small.{Small, far_d};
ghost use Rattle.sheet_change_moves.specs.After.{ColumnSmall, RowSmall, broken_change, terms_change, absent_change};
ghost use Rattle.sheet_change_totals.specs.Parts.{totals_now, column_at, row_at, column_part, row_part, moved_totals, column_after, row_after, column_totals, row_totals, coef_totals, with_broken, with_terms, SmallColumn, SmallRow, Part, Whole, Near};

use sheet_change_moves::{
    Totals, absent_change, beyond, broken, broken_change, lacking, terms_change,
};
use sheet_rules::Edit;
use sheet_terms::{bit, term};

// A column with its price D.
#[derive(Clone, Copy)]
pub struct Column {
    pub cost: i64,
    pub low: i64,
    pub high: i64,
    pub lowmark: u8,
    pub highmark: u8,
    pub amount: i64,
    pub price: i64,
}

// A row with its activity R.
#[derive(Clone, Copy)]
pub struct Row {
    pub right: i64,
    pub op: u8,
    pub activity: i64,
    pub mult: i64,
}

pub fn totals_now(c: &[i64], b: &[i64], counts: &[i64]) -> Totals
    requires { (1 ≤ length c.now) × (1 ≤ length b.now) × (4 ≤ length counts.now) }
    ensures { result ≡ totals_now c.now b.now counts.now }
{
    Totals {
        cost: c[0],
        floor: b[0],
        broken: counts[0],
        outside: counts[1],
        wrong: counts[2],
        absent: counts[3],
    }
}

// Kinds 5 and 7 may name any column, and are not to read it.
pub fn column_at(
    columns: usize,
    j: usize,
    costs: &[i64],
    lowers: &[i64],
    uppers: &[i64],
    lower_marks: &[u8],
    upper_marks: &[u8],
    amounts: &[i64],
    d: &[i64],
) -> Column
    requires { (columns ≤ length costs.now) × (columns ≤ length lowers.now) × (columns ≤ length uppers.now) ×
        (columns ≤ length lower_marks.now) × (columns ≤ length upper_marks.now) ×
        (columns ≤ length amounts.now) × (columns ≤ length d.now) }
    ensures { result ≡ column_at columns j costs.now lowers.now uppers.now
        lower_marks.now upper_marks.now amounts.now d.now }
{
    if j < columns {
        return Column {
            cost: costs[j],
            low: lowers[j],
            high: uppers[j],
            lowmark: lower_marks[j],
            highmark: upper_marks[j],
            amount: amounts[j],
            price: d[j],
        };
    }
    Column {
        cost: 0,
        low: 0,
        high: 0,
        lowmark: 0,
        highmark: 0,
        amount: 0,
        price: 0,
    }
}

// Nor do kinds 1 to 4, 8 and 9 read a row.
pub fn row_at(rows: usize, i: usize, rhs: &[i64], ops: &[u8], r: &[i64], mults: &[i64]) -> Row
    requires { (rows ≤ length rhs.now) × (rows ≤ length ops.now) × (rows ≤ length r.now) ×
        (rows ≤ length mults.now) }
    ensures { result ≡ row_at rows i rhs.now ops.now r.now mults.now }
{
    if i < rows {
        return Row {
            right: rhs[i],
            op: ops[i],
            activity: r[i],
            mult: mults[i],
        };
    }
    Row {
        right: 0,
        op: 0,
        activity: 0,
        mult: 0,
    }
}

// What a column adds.
fn column_part(x: Column) -> Totals
    requires { SmallColumn far_d x }
    ensures { result ≡ column_part x }
{
    Totals {
        cost: x.cost * x.amount,
        floor: term(x.price, x.low, x.high, x.lowmark, x.highmark),
        broken: 0,
        outside: beyond(x.amount, x.low, x.high, x.lowmark, x.highmark),
        wrong: 0,
        absent: lacking(x.price, x.lowmark, x.highmark),
    }
}

// What a row adds.
fn row_part(y: Row) -> Totals
    requires { SmallRow y }
    ensures { result ≡ row_part y }
{
    Totals {
        cost: 0,
        floor: y.mult * y.right,
        broken: broken(y.op, y.activity, y.right),
        outside: 0,
        wrong: bit(sheet_terms::wrong(y.op, y.mult)),
        absent: 0,
    }
}

// The old part's place is taken by the new one.
fn moved(t: Totals, old: Totals, new: Totals) -> Totals
    requires { Near t × Part old × Part new }
    ensures { result ≡ moved_totals t old new }
{
    Totals {
        cost: t.cost + (new.cost - old.cost),
        floor: t.floor + (new.floor - old.floor),
        broken: t.broken + (new.broken - old.broken),
        outside: t.outside + (new.outside - old.outside),
        wrong: t.wrong + (new.wrong - old.wrong),
        absent: t.absent + (new.absent - old.absent),
    }
}

// 01: "Kinds 3 and 4 mark the bound present, 8 and 9 absent with number 0".
fn column_after(e: Edit, x: Column) -> Column
    requires { NumberIn e × SmallColumn max_d x }
    ensures { result ≡ column_after e x }
{
    let kind = e.kind;
    match kind {
        1 => Column {
            amount: e.number,
            ..x
        },
        2 => Column {
            cost: e.number,
            price: x.price + doubles::UNIT * (e.number - x.cost),
            ..x
        },
        3 => Column {
            low: e.number,
            lowmark: 1,
            ..x
        },
        4 => Column {
            high: e.number,
            highmark: 1,
            ..x
        },
        8 => Column {
            low: 0,
            lowmark: 0,
            ..x
        },
        9 => Column {
            high: 0,
            highmark: 0,
            ..x
        },
        _ => x,
    }
}

fn row_after(e: Edit, y: Row) -> Row
    ensures { result ≡ row_after e y }
{
    let kind = e.kind;
    match kind {
        5 => Row {
            right: e.number,
            ..y
        },
        7 => Row {
            mult: e.number,
            ..y
        },
        _ => y,
    }
}

// Kinds 2, 3, 4, 8 and 9, and what kind 1 does to its column.
pub fn column_totals(e: Edit, t: Totals, x: Column) -> Totals
    requires { NumberIn e × Whole t × SmallColumn max_d x }
    ensures { result ≡ column_totals e t x }
{
    let after = column_after(e, x);
    moved(t, column_part(x), column_part(after))
}

// Kind 5, and what kind 7 does to its row.
pub fn row_totals(e: Edit, t: Totals, y: Row) -> Totals
    requires { NumberIn e × Whole t × SmallRow y }
    ensures { result ≡ row_totals e t y }
{
    let after = row_after(e, y);
    moved(t, row_part(y), row_part(after))
}

// Kind 6.
pub fn coef_totals(e: Edit, t: Totals, x: Column, y: Row, coef: i64) -> Totals
    requires { (nat_abs e.number ≤ max_coefficient) × Whole t × SmallColumn max_d x × SmallRow y ×
        (nat_abs y.activity ≤ max_r) × (nat_abs coef ≤ max_coefficient) }
    ensures { result ≡ coef_totals t x y (e.number -ℤ coef) }
{
    let by = e.number - coef;
    let risen = Row {
        activity: y.activity + by * x.amount,
        ..y
    };
    let fallen = Column {
        price: x.price - by * y.mult,
        ..x
    };
    let z = moved(t, row_part(y), row_part(risen));
    moved(z, column_part(x), column_part(fallen))
}

// Kind 1: R of every row moves.
pub fn amount_totals(
    e: Edit,
    t: Totals,
    x: Column,
    rows: usize,
    columns: usize,
    coefs: &[i64],
    rhs: &[i64],
    ops: &[u8],
    r: &[i64],
) -> Totals
    requires { (e.kind ≡ 1) × NumberIn e × Whole t × SmallColumn max_d x × (rows ≤ max_rows) × ColumnSmall rows columns
        e.column coefs.now × (rows ≤ length rhs.now) × (rows ≤ length ops.now) × Small max_r rows r.now }
    ensures { result ≡ with_broken (column_totals e t x)
        (broken_change rows columns e.column (e.number -ℤ x.amount) coefs.now rhs.now
        ops.now r.now) }
{
    let by = e.number - x.amount;
    let n = broken_change(rows, columns, e.column, by, coefs, rhs, ops, r);
    let z = column_totals(e, t, x);
    Totals {
        broken: z.broken + n,
        ..z
    }
}

// Kind 7: D of every column moves.
pub fn mult_totals(
    e: Edit,
    t: Totals,
    y: Row,
    rows: usize,
    columns: usize,
    coefs: &[i64],
    lowers: &[i64],
    uppers: &[i64],
    lower_marks: &[u8],
    upper_marks: &[u8],
    d: &[i64],
) -> Totals
    requires { (e.kind ≡ 7) × NumberIn e × Whole t × SmallRow y × (columns ≤ max_columns) × RowSmall rows columns
        e.row coefs.now × Small max_bound columns lowers.now × Small max_bound columns uppers.now ×
        (columns ≤ length lower_marks.now) × (columns ≤ length upper_marks.now) × Small max_d columns d.now }
    ensures { result ≡ with_terms (row_totals e t y)
        (terms_change columns e.row (e.number -ℤ y.mult) coefs.now lowers.now
        uppers.now lower_marks.now upper_marks.now d.now)
        (absent_change columns e.row (e.number -ℤ y.mult) coefs.now lower_marks.now
        upper_marks.now d.now) }
{
    let by = e.number - y.mult;
    let b = terms_change(
        rows,
        columns,
        e.row,
        by,
        coefs,
        lowers,
        uppers,
        lower_marks,
        upper_marks,
        d,
    );
    let n = absent_change(rows, columns, e.row, by, coefs, lower_marks, upper_marks, d);
    let z = row_totals(e, t, y);
    Totals {
        floor: z.floor + b,
        absent: z.absent + n,
        ..z
    }
}
