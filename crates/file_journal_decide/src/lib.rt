// What an edit with a journal and an undo answer, by & alone: the journal's number, the sheet's, or their own.
#![tactic(auto)]

ghost use Rattle.std.specs.Prelude.{◌≡◌, ltb};
ghost use Rattle.sheet_rules.specs.Sheet.{plan_of, kept_of, sheet_of};
ghost use Rattle.sheet_rules.specs.Edit.{edit_refusal};
ghost use Rattle.file_journal_rules.specs.Journal.{else, unless_so};
ghost use Rattle.file_journal_rules.specs.Lent.{lent, tested, undoes_refusal};

use file_journal_entry::take_refusal;
use file_journal_rules::Tested;
use file_journal_walk::entry_at;
use sheet_rules::Edit;

// The journal's number, else the sheet's, else 37.
pub fn keep_refusal(
    t: Tested,
    room: usize,
    e: Edit,
    rows: usize,
    columns: usize,
    coefs: &[i64],
    costs: &[i64],
    lowers: &[i64],
    uppers: &[i64],
    lower_marks: &[u8],
    upper_marks: &[u8],
    rhs: &[i64],
    ops: &[u8],
    amounts: &[i64],
    mults: &[i64],
    r: &[i64],
    d: &[i64],
    c: &[i64],
    b: &[i64],
    counts: &[i64],
) -> usize
    ensures { result ≡ else t.refusal (else (edit_refusal
        (sheet_of (plan_of rows columns coefs.now costs.now lowers.now
        uppers.now lower_marks.now upper_marks.now rhs.now
        ops.now amounts.now mults.now)
        (kept_of r.now d.now c.now b.now counts.now)) e)
        (unless_so 37 (ltb t.entries room))) }
{
    if t.refusal != 0 {
        return t.refusal;
    }
    let refusal = sheet_change_edit::edit_refusal(
        e,
        rows,
        columns,
        coefs,
        costs,
        lowers,
        uppers,
        lower_marks,
        upper_marks,
        rhs,
        ops,
        amounts,
        mults,
        r,
        d,
        c,
        b,
        counts,
    );
    if refusal != 0 {
        return refusal;
    }
    if t.entries < room {
        return 0;
    }
    37
}

// The journal's number, else 35, else the sheet's for the edit back, else 36.
pub fn undo_refusal(
    t: Tested,
    rows: usize,
    columns: usize,
    coefs: &[i64],
    costs: &[i64],
    lowers: &[i64],
    uppers: &[i64],
    lower_marks: &[u8],
    upper_marks: &[u8],
    rhs: &[i64],
    ops: &[u8],
    amounts: &[i64],
    mults: &[i64],
    r: &[i64],
    d: &[i64],
    c: &[i64],
    b: &[i64],
    counts: &[i64],
    journal: &[u8],
) -> usize
    requires { t ≡ tested journal.now }
    ensures { result ≡ undoes_refusal (lent
        (sheet_of (plan_of rows columns coefs.now costs.now lowers.now
        uppers.now lower_marks.now upper_marks.now rhs.now
        ops.now amounts.now mults.now)
        (kept_of r.now d.now c.now b.now counts.now))
        journal.now) }
{
    if t.refusal != 0 {
        return t.refusal;
    }
    if t.entries == 0 {
        return 35;
    }
    let n = entry_at(journal, t.entries - 1);
    take_refusal(
        n,
        rows,
        columns,
        coefs,
        costs,
        lowers,
        uppers,
        lower_marks,
        upper_marks,
        rhs,
        ops,
        amounts,
        mults,
        r,
        d,
        c,
        b,
        counts,
    )
}
