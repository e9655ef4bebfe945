// The journal's public undo. It asks nothing: whatever is lent, the answer and every lent cell afterwards are settled.
#![tactic(auto)]

ghost use Rattle.sheet_rules.specs.Sheet.{plan_of, kept_of, sheet_of};
ghost use Rattle.file_journal_rules.specs.Lent.{lent};
ghost use Rattle.file_journal_rules.specs.Promises.{Undoes};

use file_journal_decide::undo_refusal;
use file_journal_entry::take_back;
use file_journal_push::pop;
use file_journal_walk::{entry_at, test};

// Takes the last entry back: 31 to 36, or 11 to 16, and nothing changed, or 0.
pub fn undo(
    rows: usize,
    columns: usize,
    coefs: &mut [i64],
    costs: &mut [i64],
    lowers: &mut [i64],
    uppers: &mut [i64],
    lower_marks: &mut [u8],
    upper_marks: &mut [u8],
    rhs: &mut [i64],
    ops: &[u8],
    amounts: &mut [i64],
    mults: &mut [i64],
    r: &mut [i64],
    d: &mut [i64],
    c: &mut [i64],
    b: &mut [i64],
    counts: &mut [i64],
    journal: &mut [u8],
) -> usize
    ensures { Undoes (lent (sheet_of (plan_of rows columns coefs.old costs.old
        lowers.old uppers.old lower_marks.old upper_marks.old
        rhs.old ops.now amounts.old mults.old)
        (kept_of r.old d.old c.old b.old counts.old))
        journal.old) result (lent (sheet_of (plan_of rows columns coefs.new costs.new
        lowers.new uppers.new lower_marks.new upper_marks.new
        rhs.new ops.now amounts.new mults.new)
        (kept_of r.new d.new c.new b.new counts.new))
        journal.new) }
{
    let t = test(journal);
    let refusal = undo_refusal(
        t,
        rows,
        columns,
        coefs,
        costs,
        lowers,
        uppers,
        lower_marks,
        upper_marks,
        rhs,
        ops,
        amounts,
        mults,
        r,
        d,
        c,
        b,
        counts,
        journal,
    );
    if refusal == 0 {
        let last = t.entries - 1;
        let n = entry_at(journal, last);
        let e = take_back(n);
        sheet_store_apply::apply_edit(
            e,
            rows,
            columns,
            coefs,
            costs,
            lowers,
            uppers,
            lower_marks,
            upper_marks,
            rhs,
            ops,
            amounts,
            mults,
            r,
            d,
            c,
            b,
            counts,
        );
        pop(journal, last);
    }
    refusal
}
