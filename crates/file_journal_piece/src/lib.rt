// A piece of a fed journal, byte by byte (02, Ask 12).
#![tactic(auto)]

ghost use Rattle.std.specs.Prelude.{◌≡◌, ◌≤◌, ◌<◌, length};
ghost use Rattle.doubles.specs.Lists.{◌#◌};
ghost use Rattle.sheet_rules.specs.Sheet.{plan_of, kept_of, sheet_of};
ghost use Rattle.file_rules.specs.Block.{size_of_block};
ghost use Rattle.file_journal_rules.specs.Feed.{feed_by, feed, feed_from, fed_of, left_by};
ghost use Rattle.file_journal_take.specs.Steps.{Leaves};

use file_journal_cells::put_byte;
use file_journal_take::take_block;

// One byte: it waits, or makes the block whole.
fn feed_byte(
    x: u8,
    rows: usize,
    columns: usize,
    coefs: &mut [i64],
    costs: &mut [i64],
    lowers: &mut [i64],
    uppers: &mut [i64],
    lower_marks: &mut [u8],
    upper_marks: &mut [u8],
    rhs: &mut [i64],
    ops: &[u8],
    amounts: &mut [i64],
    mults: &mut [i64],
    r: &mut [i64],
    d: &mut [i64],
    c: &mut [i64],
    b: &mut [i64],
    counts: &mut [i64],
    waiting: &mut [u8],
    cells: &mut [usize],
)
    requires { (size_of_block ≤ length waiting.old) × (4 ≤ length cells.old) × (cells.old # 2 ≡ 0) × (cells.old # 1
        < size_of_block) }
    ensures { Leaves cells.old (feed_by 0 x (feed_from
        (sheet_of (plan_of rows columns coefs.old costs.old lowers.old
        uppers.old lower_marks.old upper_marks.old rhs.old
        ops.now amounts.old mults.old)
        (kept_of r.old d.old c.old b.old counts.old))
        waiting.old cells.old))
        (sheet_of (plan_of rows columns coefs.new costs.new lowers.new
        uppers.new lower_marks.new upper_marks.new rhs.new
        ops.now amounts.new mults.new)
        (kept_of r.new d.new c.new b.new counts.new))
        waiting.new cells.new }
{
    if put_byte(x, waiting, cells) {
        take_block(
            rows,
            columns,
            coefs,
            costs,
            lowers,
            uppers,
            lower_marks,
            upper_marks,
            rhs,
            ops,
            amounts,
            mults,
            r,
            d,
            c,
            b,
            counts,
            waiting,
            cells,
        );
    }
}

// Byte by byte, up to the first refusal.
pub fn feed_bytes(
    piece: &[u8],
    rows: usize,
    columns: usize,
    coefs: &mut [i64],
    costs: &mut [i64],
    lowers: &mut [i64],
    uppers: &mut [i64],
    lower_marks: &mut [u8],
    upper_marks: &mut [u8],
    rhs: &mut [i64],
    ops: &[u8],
    amounts: &mut [i64],
    mults: &mut [i64],
    r: &mut [i64],
    d: &mut [i64],
    c: &mut [i64],
    b: &mut [i64],
    counts: &mut [i64],
    waiting: &mut [u8],
    cells: &mut [usize],
) -> usize
    requires { (size_of_block ≤ length waiting.old) × (4 ≤ length cells.old) × (cells.old # 1 < size_of_block) }
    ensures { fed_of result (sheet_of (plan_of rows columns coefs.new costs.new
        lowers.new uppers.new lower_marks.new upper_marks.new
        rhs.new ops.now amounts.new mults.new)
        (kept_of r.new d.new c.new b.new counts.new))
        waiting.new cells.new
        ≡ left_by (feed piece.now (feed_from
        (sheet_of (plan_of rows columns coefs.old costs.old lowers.old
        uppers.old lower_marks.old upper_marks.old rhs.old
        ops.now amounts.old mults.old)
        (kept_of r.old d.old c.old b.old counts.old))
        waiting.old cells.old)) cells.old }
{
    for &x in piece {
        if cells[2] != 0 {
            return cells[2];
        }
        feed_byte(
            x,
            rows,
            columns,
            coefs,
            costs,
            lowers,
            uppers,
            lower_marks,
            upper_marks,
            rhs,
            ops,
            amounts,
            mults,
            r,
            d,
            c,
            b,
            counts,
            waiting,
            cells,
        );
    }
    cells[2]
}
