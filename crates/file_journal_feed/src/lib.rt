// A feed of a journal's file in pieces, the public call. It asks nothing: whatever is lent, the answer and every lent
// cell afterwards are settled.
#![tactic(auto)]

ghost use Rattle.sheet_rules.specs.Sheet.{plan_of, kept_of, sheet_of};
ghost use Rattle.file_journal_rules.specs.Feed.{fed_of};
ghost use Rattle.file_journal_rules.specs.Promises.{Feeds};

use file_journal_cells::feed_fine;

// A piece of a feed: 11 and nothing changed where the lent memory isn't a feed's, else the refusal, 0 while there is
// none.
pub fn feed(
    piece: &[u8],
    rows: usize,
    columns: usize,
    coefs: &mut [i64],
    costs: &mut [i64],
    lowers: &mut [i64],
    uppers: &mut [i64],
    lower_marks: &mut [u8],
    upper_marks: &mut [u8],
    rhs: &mut [i64],
    ops: &[u8],
    amounts: &mut [i64],
    mults: &mut [i64],
    r: &mut [i64],
    d: &mut [i64],
    c: &mut [i64],
    b: &mut [i64],
    counts: &mut [i64],
    waiting: &mut [u8],
    cells: &mut [usize],
) -> usize
    ensures { Feeds piece.now
        (sheet_of (plan_of rows columns coefs.old costs.old lowers.old
        uppers.old lower_marks.old upper_marks.old rhs.old
        ops.now amounts.old mults.old)
        (kept_of r.old d.old c.old b.old counts.old))
        waiting.old cells.old (fed_of result
        (sheet_of (plan_of rows columns coefs.new costs.new lowers.new
        uppers.new lower_marks.new upper_marks.new rhs.new
        ops.now amounts.new mults.new)
        (kept_of r.new d.new c.new b.new counts.new))
        waiting.new cells.new) }
{
    if !feed_fine(waiting, cells) {
        return 11;
    }
    file_journal_piece::feed_bytes(
        piece,
        rows,
        columns,
        coefs,
        costs,
        lowers,
        uppers,
        lower_marks,
        upper_marks,
        rhs,
        ops,
        amounts,
        mults,
        r,
        d,
        c,
        b,
        counts,
        waiting,
        cells,
    )
}
