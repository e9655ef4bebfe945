// The blocks of a feed: an entry taken, the entries of a block in turn, a whole block.
#![tactic(auto)]

ghost use Rattle.std.specs.Prelude.{◌≡◌, ◌≤◌, length, drop};
ghost use Rattle.doubles.specs.Lists.{◌#◌};
ghost use Rattle.sheet_rules.specs.Sheet.{plan_of, kept_of, sheet_of};
ghost use Rattle.file_rules.specs.Block.{size_of_block};
ghost use Rattle.file_journal_rules.specs.File.{entries_from};
ghost use Rattle.file_journal_rules.specs.Feed.{fed_entry, apply_all, take_block, feed_from};
ghost use Rattle.file_journal_take.specs.Steps.{Leaves};

use file_journal_bytes::entry_from;
use file_journal_cells::{block_says, entries_taken, settle};
use file_journal_entry::{feed_refusal, forth};
use file_journal_rules::Entry;

// One entry: the sheet's number or 36 and nothing changed, or 0 and the sheet edited.
fn feed_entry(
    n: Entry,
    rows: usize,
    columns: usize,
    coefs: &mut [i64],
    costs: &mut [i64],
    lowers: &mut [i64],
    uppers: &mut [i64],
    lower_marks: &mut [u8],
    upper_marks: &mut [u8],
    rhs: &mut [i64],
    ops: &[u8],
    amounts: &mut [i64],
    mults: &mut [i64],
    r: &mut [i64],
    d: &mut [i64],
    c: &mut [i64],
    b: &mut [i64],
    counts: &mut [i64],
) -> usize
    ensures { (
      result,
      (sheet_of (plan_of rows columns coefs.new costs.new lowers.new
          uppers.new lower_marks.new upper_marks.new rhs.new
          ops.now amounts.new mults.new)
          (kept_of r.new d.new c.new b.new counts.new)),
    )
        ≡ fed_entry (sheet_of (plan_of rows columns coefs.old costs.old lowers.old
        uppers.old lower_marks.old upper_marks.old rhs.old
        ops.now amounts.old mults.old)
        (kept_of r.old d.old c.old b.old counts.old)) n }
{
    let refusal = feed_refusal(
        n,
        rows,
        columns,
        coefs,
        costs,
        lowers,
        uppers,
        lower_marks,
        upper_marks,
        rhs,
        ops,
        amounts,
        mults,
        r,
        d,
        c,
        b,
        counts,
    );
    if refusal == 0 {
        let e = forth(n);
        sheet_store_apply::apply_edit(
            e,
            rows,
            columns,
            coefs,
            costs,
            lowers,
            uppers,
            lower_marks,
            upper_marks,
            rhs,
            ops,
            amounts,
            mults,
            r,
            d,
            c,
            b,
            counts,
        );
    }
    refusal
}

// The block's entries in turn, up to the first that is refused.
fn feed_entries(
    waiting: &[u8],
    count: usize,
    rows: usize,
    columns: usize,
    coefs: &mut [i64],
    costs: &mut [i64],
    lowers: &mut [i64],
    uppers: &mut [i64],
    lower_marks: &mut [u8],
    upper_marks: &mut [u8],
    rhs: &mut [i64],
    ops: &[u8],
    amounts: &mut [i64],
    mults: &mut [i64],
    r: &mut [i64],
    d: &mut [i64],
    c: &mut [i64],
    b: &mut [i64],
    counts: &mut [i64],
) -> usize
    requires { (length waiting.now ≡ size_of_block) × (count ≤ 22) }
    ensures { (
      result,
      (sheet_of (plan_of rows columns coefs.new costs.new lowers.new
          uppers.new lower_marks.new upper_marks.new rhs.new
          ops.now amounts.new mults.new)
          (kept_of r.new d.new c.new b.new counts.new)),
    )
        ≡ apply_all (entries_from count (drop 4 waiting.now))
        (sheet_of (plan_of rows columns coefs.old costs.old lowers.old
        uppers.old lower_marks.old upper_marks.old rhs.old
        ops.now amounts.old mults.old)
        (kept_of r.old d.old c.old b.old counts.old)) }
{
    for k in 0..count {
        let n = entry_from(waiting, 4 + 22 * k);
        let refusal = feed_entry(
            n,
            rows,
            columns,
            coefs,
            costs,
            lowers,
            uppers,
            lower_marks,
            upper_marks,
            rhs,
            ops,
            amounts,
            mults,
            r,
            d,
            c,
            b,
            counts,
        );
        if refusal != 0 {
            return refusal;
        }
    }
    0
}

// A whole block: tested, its entries taken, the cells settled.
pub fn take_block(
    rows: usize,
    columns: usize,
    coefs: &mut [i64],
    costs: &mut [i64],
    lowers: &mut [i64],
    uppers: &mut [i64],
    lower_marks: &mut [u8],
    upper_marks: &mut [u8],
    rhs: &mut [i64],
    ops: &[u8],
    amounts: &mut [i64],
    mults: &mut [i64],
    r: &mut [i64],
    d: &mut [i64],
    c: &mut [i64],
    b: &mut [i64],
    counts: &mut [i64],
    waiting: &[u8],
    cells: &mut [usize],
)
    requires { (size_of_block ≤ length waiting.now) × (4 ≤ length cells.old) × (cells.old # 2 ≡ 0) }
    ensures { Leaves cells.old (take_block (feed_from
        (sheet_of (plan_of rows columns coefs.old costs.old lowers.old
        uppers.old lower_marks.old upper_marks.old rhs.old
        ops.now amounts.old mults.old)
        (kept_of r.old d.old c.old b.old counts.old))
        waiting.now cells.old))
        (sheet_of (plan_of rows columns coefs.new costs.new lowers.new
        uppers.new lower_marks.new upper_marks.new rhs.new
        ops.now amounts.new mults.new)
        (kept_of r.new d.new c.new b.new counts.new))
        waiting.now cells.new }
{
    let says = block_says(&waiting[0..512], cells[3], cells[0]);
    let count = entries_taken(&waiting[0..512], says);
    let refused = feed_entries(
        &waiting[0..512],
        count,
        rows,
        columns,
        coefs,
        costs,
        lowers,
        uppers,
        lower_marks,
        upper_marks,
        rhs,
        ops,
        amounts,
        mults,
        r,
        d,
        c,
        b,
        counts,
    );
    settle(&waiting[0..512], says, refused, cells);
}
