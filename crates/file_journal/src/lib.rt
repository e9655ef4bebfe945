// The journal's public edit. It asks nothing: whatever is lent, the answer and every lent cell afterwards are settled.
#![tactic(auto)]

ghost use Rattle.sheet_rules.specs.Sheet.{plan_of, kept_of, sheet_of};
ghost use Rattle.file_journal_rules.specs.Lent.{lent};
ghost use Rattle.file_journal_rules.specs.Promises.{Keeps};

use file_journal_decide::keep_refusal;
use file_journal_entry::entry_of;
use file_journal_push::push;
use file_journal_walk::{room_of, test};
use sheet_rules::Edit;

// Edits a sheet and keeps the edit in its journal: 31 to 34, 11 to 16 or 37 and nothing changed, or 0.
pub fn edit(
    kind: usize,
    row: usize,
    column: usize,
    number: i64,
    rows: usize,
    columns: usize,
    coefs: &mut [i64],
    costs: &mut [i64],
    lowers: &mut [i64],
    uppers: &mut [i64],
    lower_marks: &mut [u8],
    upper_marks: &mut [u8],
    rhs: &mut [i64],
    ops: &[u8],
    amounts: &mut [i64],
    mults: &mut [i64],
    r: &mut [i64],
    d: &mut [i64],
    c: &mut [i64],
    b: &mut [i64],
    counts: &mut [i64],
    journal: &mut [u8],
) -> usize
    ensures { Keeps (lent (sheet_of (plan_of rows columns coefs.old costs.old
        lowers.old uppers.old lower_marks.old upper_marks.old
        rhs.old ops.now amounts.old mults.old)
        (kept_of r.old d.old c.old b.old counts.old))
        journal.old) (record { kind = kind; row = row; column = column; number = number }) result (lent
        (sheet_of (plan_of rows columns coefs.new costs.new lowers.new
        uppers.new lower_marks.new upper_marks.new rhs.new
        ops.now amounts.new mults.new)
        (kept_of r.new d.new c.new b.new counts.new))
        journal.new) }
{
    let e = Edit {
        kind: kind,
        row: row,
        column: column,
        number: number,
    };
    let t = test(journal);
    let room = room_of(journal);
    let refusal = keep_refusal(
        t,
        room,
        e,
        rows,
        columns,
        coefs,
        costs,
        lowers,
        uppers,
        lower_marks,
        upper_marks,
        rhs,
        ops,
        amounts,
        mults,
        r,
        d,
        c,
        b,
        counts,
    );
    if refusal == 0 {
        let n = entry_of(
            e,
            rows,
            columns,
            coefs,
            costs,
            lowers,
            uppers,
            lower_marks,
            upper_marks,
            rhs,
            ops,
            amounts,
            mults,
        );
        sheet_store_apply::apply_edit(
            e,
            rows,
            columns,
            coefs,
            costs,
            lowers,
            uppers,
            lower_marks,
            upper_marks,
            rhs,
            ops,
            amounts,
            mults,
            r,
            d,
            c,
            b,
            counts,
        );
        push(journal, t.entries, n);
    }
    refusal
}
