// What an accepted edit writes: the edited cell's number and mark, and C, B and the counts.
#![tactic(auto)]

ghost use Rattle.std.specs.Prelude.{◌≡◌, true, [], ◌+◌, ◌*◌, ◌<◌, ◌≤◌, length, pos};
ghost use Rattle.sheet_rules.specs.Sheet.{plan_of, kept_of, over_kept};
ghost use Rattle.sheet_rules.specs.Edit.{put, edited};
ghost use Rattle.sheet_rules.specs.Words.{Index};
ghost use Rattle.sheet_tests.specs.Sized.{PlanSized};
ghost use Rattle.sheet_store_put.specs.Cells.{cells_of};

use sheet_change_moves::Totals;
use sheet_rules::Edit;

// v at place i, where the kind is the one that writes there.
fn put_number(hit: bool, i: usize, v: i64, xs: &mut [i64])
    requires { hit ≡ true → i < length xs.old }
    ensures { xs.new ≡ put hit i v xs.old }
{
    if hit {
        xs[i] = v;
    }
}

// The same of a mark.
fn put_mark(hit: bool, i: usize, v: u8, marks: &mut [u8])
    requires { hit ≡ true → i < length marks.old }
    ensures { marks.new ≡ put hit i v marks.old }
{
    if hit {
        marks[i] = v;
    }
}

// The same of a coefficient. Its place is reckoned for kind 6 alone: another kind's row may be anything.
fn put_coef(hit: bool, row: usize, column: usize, columns: usize, v: i64, coefs: &mut [i64])
    requires { hit ≡ true → row * columns + column < length coefs.old }
    ensures { coefs.new ≡ put hit (row * columns + column) v coefs.old }
{
    if hit {
        coefs[row * columns + column] = v;
    }
}

// A bound that an edit takes is present, one that it drops is absent with number 0.
fn put_bound(take: bool, drop: bool, j: usize, v: i64, xs: &mut [i64], marks: &mut [u8])
    requires { (take ≡ true → (j < length xs.old) × (j < length marks.old)) ×
        (drop ≡ true → (j < length xs.old) × (j < length marks.old)) }
    ensures { (xs.new ≡ put drop j (pos 0) (put take j v xs.old)) ×
        (marks.new ≡ put drop j 0 (put take j 1 marks.old)) }
{
    put_number(take, j, v, xs);
    put_number(drop, j, 0, xs);
    put_mark(take, j, 1, marks);
    put_mark(drop, j, 0, marks);
}

// The edited cell. 01: "its cell takes the number handed in (kinds 8 and 9 aside)".
pub fn put_cell(
    e: Edit,
    rows: usize,
    columns: usize,
    coefs: &mut [i64],
    costs: &mut [i64],
    lowers: &mut [i64],
    uppers: &mut [i64],
    lower_marks: &mut [u8],
    upper_marks: &mut [u8],
    rhs: &mut [i64],
    ops: &[u8],
    amounts: &mut [i64],
    mults: &mut [i64],
)
    requires { PlanSized (plan_of rows columns coefs.old costs.old lowers.old uppers.old lower_marks.old
        upper_marks.old rhs.old ops.now amounts.old mults.old) × Index
        (plan_of rows columns coefs.old costs.old lowers.old uppers.old lower_marks.old upper_marks.old
        rhs.old ops.now amounts.old mults.old) e }
    ensures { plan_of rows columns coefs.new costs.new lowers.new
        uppers.new lower_marks.new upper_marks.new rhs.new
        ops.now amounts.new mults.new ≡ edited
        (plan_of rows columns coefs.old costs.old lowers.old uppers.old
        lower_marks.old upper_marks.old rhs.old ops.now
        amounts.old mults.old) e }
{
    let kind = e.kind;
    let i = e.row;
    let j = e.column;
    put_coef(kind == 6, i, j, columns, e.number, coefs);
    put_number(kind == 2, j, e.number, costs);
    put_bound(kind == 3, kind == 8, j, e.number, lowers, lower_marks);
    put_bound(kind == 4, kind == 9, j, e.number, uppers, upper_marks);
    put_number(kind == 5, i, e.number, rhs);
    put_number(kind == 1, j, e.number, amounts);
    put_number(kind == 7, i, e.number, mults);
}

// C, B and the counts.
pub fn store_totals(t: Totals, c: &mut [i64], b: &mut [i64], counts: &mut [i64])
    requires { (1 ≤ length c.old) × (1 ≤ length b.old) × (4 ≤ length counts.old) }
    ensures { kept_of [] [] c.new b.new counts.new ≡ over_kept (cells_of t)
        (kept_of [] [] c.old b.old counts.old) }
{
    let cost = t.cost;
    let floor = t.floor;
    let broken = t.broken;
    let outside = t.outside;
    let wrong = t.wrong;
    let absent = t.absent;
    c[0] = cost;
    b[0] = floor;
    counts[0] = broken;
    counts[1] = outside;
    counts[2] = wrong;
    counts[3] = absent;
}
