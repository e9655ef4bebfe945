// What an entry means on a sheet: the entry of an edit, and the refusals of a journaled edit, an undo and a fed entry.
#![tactic(auto)]

ghost use Rattle.std.specs.Prelude.{◌≡◌};
ghost use Rattle.sheet_rules.specs.Sheet.{plan_of, kept_of, sheet_of};
ghost use Rattle.sheet_rules.specs.Edit.{edit_refusal};
ghost use Rattle.sheet_rules.specs.Words.{Index};
ghost use Rattle.sheet_tests.specs.Sized.{PlanSized};
ghost use Rattle.file_journal_rules.specs.Undo.{back_kind};
ghost use Rattle.file_journal_rules.specs.Journal.{used, taken, tidy, entry_of, forth};
ghost use Rattle.file_journal_rules.specs.Journal.{take_back, reads, else, unless_so, take_refusal, feed_refusal};

use file_journal_rules::Entry;
use sheet_rules::Edit;

// An entry's edit.
pub fn forth(n: Entry) -> Edit
    ensures { result ≡ forth n }
{
    Edit {
        kind: n.kind,
        row: n.row,
        column: n.column,
        number: n.new,
    }
}

// A bound that was absent is dropped again, one that was present put back.
fn back_kind(kind: usize, before: usize) -> usize
    ensures { result ≡ back_kind kind before }
{
    if (kind == 3) | (kind == 8) {
        if before == 0 {
            return 8;
        }
        return 3;
    }
    if (kind == 4) | (kind == 9) {
        if before == 0 {
            return 9;
        }
        return 4;
    }
    kind
}

// The edit that takes an entry back.
pub fn take_back(n: Entry) -> Edit
    ensures { result ≡ take_back n }
{
    let kind = back_kind(n.kind, n.before);
    Edit {
        kind: kind,
        row: n.row,
        column: n.column,
        number: n.old,
    }
}

// A place, and a number, where the kind uses it; else 0.
fn used(uses: bool, i: usize) -> usize
    ensures { result ≡ used uses i }
{
    if uses {
        return i;
    }
    0
}

fn taken(uses: bool, z: i64) -> i64
    ensures { result ≡ taken uses z }
{
    if uses {
        return z;
    }
    0
}

// The edit with what its kind doesn't use put to 0.
fn tidied(e: Edit) -> Edit
    ensures { result ≡ tidy e }
{
    let kind = e.kind;
    let row = used((kind == 5) | (kind == 6) | (kind == 7), e.row);
    let column = used(!((kind == 5) | (kind == 7)), e.column);
    let number = taken(kind <= 7, e.number);
    Edit {
        kind: kind,
        row: row,
        column: column,
        number: number,
    }
}

// Whether the edit's cell holds this number with this mark.
fn reads(
    e: Edit,
    number: i64,
    mark: usize,
    rows: usize,
    columns: usize,
    coefs: &[i64],
    costs: &[i64],
    lowers: &[i64],
    uppers: &[i64],
    lower_marks: &[u8],
    upper_marks: &[u8],
    rhs: &[i64],
    ops: &[u8],
    amounts: &[i64],
    mults: &[i64],
) -> bool
    requires { PlanSized (plan_of rows columns coefs.now costs.now lowers.now uppers.now lower_marks.now
        upper_marks.now rhs.now ops.now amounts.now mults.now) × Index (plan_of rows columns coefs.now
        costs.now lowers.now uppers.now lower_marks.now upper_marks.now rhs.now ops.now
        amounts.now mults.now) e }
    ensures { result ≡ reads (plan_of rows columns coefs.now costs.now lowers.now
        uppers.now lower_marks.now upper_marks.now rhs.now
        ops.now amounts.now mults.now) e number mark }
{
    let cell = sheet_change_edit::old_cell(
        e,
        rows,
        columns,
        coefs,
        costs,
        lowers,
        uppers,
        lower_marks,
        upper_marks,
        rhs,
        ops,
        amounts,
        mults,
    );
    sheet_terms::holds(1, cell.number, number) & ((cell.mark as usize) == mark)
}

// The entry that an edit leaves, from the plan before it.
pub fn entry_of(
    e: Edit,
    rows: usize,
    columns: usize,
    coefs: &[i64],
    costs: &[i64],
    lowers: &[i64],
    uppers: &[i64],
    lower_marks: &[u8],
    upper_marks: &[u8],
    rhs: &[i64],
    ops: &[u8],
    amounts: &[i64],
    mults: &[i64],
) -> Entry
    requires { PlanSized (plan_of rows columns coefs.now costs.now lowers.now uppers.now lower_marks.now
        upper_marks.now rhs.now ops.now amounts.now mults.now) × Index (plan_of rows columns coefs.now
        costs.now lowers.now uppers.now lower_marks.now upper_marks.now rhs.now ops.now
        amounts.now mults.now) e }
    ensures { result ≡ entry_of (plan_of rows columns coefs.now costs.now lowers.now
        uppers.now lower_marks.now upper_marks.now rhs.now
        ops.now amounts.now mults.now) e }
{
    let t = tidied(e);
    let cell = sheet_change_edit::old_cell(
        t,
        rows,
        columns,
        coefs,
        costs,
        lowers,
        uppers,
        lower_marks,
        upper_marks,
        rhs,
        ops,
        amounts,
        mults,
    );
    Entry {
        kind: t.kind,
        row: t.row,
        column: t.column,
        old: cell.number,
        new: t.number,
        before: cell.mark as usize,
    }
}

// The sheet's number for e, else 36 where the cell of f doesn't hold this number with this mark.
fn where_refusal(
    e: Edit,
    f: Edit,
    number: i64,
    mark: usize,
    rows: usize,
    columns: usize,
    coefs: &[i64],
    costs: &[i64],
    lowers: &[i64],
    uppers: &[i64],
    lower_marks: &[u8],
    upper_marks: &[u8],
    rhs: &[i64],
    ops: &[u8],
    amounts: &[i64],
    mults: &[i64],
    r: &[i64],
    d: &[i64],
    c: &[i64],
    b: &[i64],
    counts: &[i64],
) -> usize
    requires { edit_refusal (sheet_of (plan_of rows columns coefs.now costs.now lowers.now uppers.now
        lower_marks.now upper_marks.now rhs.now ops.now amounts.now mults.now)
        (kept_of r.now d.now c.now b.now counts.now)) e
        ≡ 0 → Index (plan_of rows columns coefs.now costs.now lowers.now uppers.now lower_marks.now
        upper_marks.now rhs.now ops.now amounts.now mults.now) f }
    ensures { result ≡ else (edit_refusal
        (sheet_of (plan_of rows columns coefs.now costs.now lowers.now
        uppers.now lower_marks.now upper_marks.now rhs.now
        ops.now amounts.now mults.now)
        (kept_of r.now d.now c.now b.now counts.now)) e)
        (unless_so 36 (reads (plan_of rows columns coefs.now costs.now lowers.now
        uppers.now lower_marks.now upper_marks.now rhs.now
        ops.now amounts.now mults.now) f number mark)) }
{
    let refusal = sheet_change_edit::edit_refusal(
        e,
        rows,
        columns,
        coefs,
        costs,
        lowers,
        uppers,
        lower_marks,
        upper_marks,
        rhs,
        ops,
        amounts,
        mults,
        r,
        d,
        c,
        b,
        counts,
    );
    if refusal != 0 {
        return refusal;
    }
    if reads(
        f,
        number,
        mark,
        rows,
        columns,
        coefs,
        costs,
        lowers,
        uppers,
        lower_marks,
        upper_marks,
        rhs,
        ops,
        amounts,
        mults,
    ) {
        return 0;
    }
    36
}

// Of an undo: the sheet's number for the edit back, else 36.
pub fn take_refusal(
    n: Entry,
    rows: usize,
    columns: usize,
    coefs: &[i64],
    costs: &[i64],
    lowers: &[i64],
    uppers: &[i64],
    lower_marks: &[u8],
    upper_marks: &[u8],
    rhs: &[i64],
    ops: &[u8],
    amounts: &[i64],
    mults: &[i64],
    r: &[i64],
    d: &[i64],
    c: &[i64],
    b: &[i64],
    counts: &[i64],
) -> usize
    ensures { result ≡ take_refusal (sheet_of (plan_of rows columns coefs.now costs.now
        lowers.now uppers.now lower_marks.now upper_marks.now
        rhs.now ops.now amounts.now mults.now)
        (kept_of r.now d.now c.now b.now counts.now)) n }
{
    let e = take_back(n);
    let f = forth(n);
    let mark = used(n.kind <= 7, 1);
    where_refusal(
        e,
        f,
        n.new,
        mark,
        rows,
        columns,
        coefs,
        costs,
        lowers,
        uppers,
        lower_marks,
        upper_marks,
        rhs,
        ops,
        amounts,
        mults,
        r,
        d,
        c,
        b,
        counts,
    )
}

// Of a fed entry: the sheet's number for its edit, else 36.
pub fn feed_refusal(
    n: Entry,
    rows: usize,
    columns: usize,
    coefs: &[i64],
    costs: &[i64],
    lowers: &[i64],
    uppers: &[i64],
    lower_marks: &[u8],
    upper_marks: &[u8],
    rhs: &[i64],
    ops: &[u8],
    amounts: &[i64],
    mults: &[i64],
    r: &[i64],
    d: &[i64],
    c: &[i64],
    b: &[i64],
    counts: &[i64],
) -> usize
    ensures { result ≡ feed_refusal (sheet_of (plan_of rows columns coefs.now costs.now
        lowers.now uppers.now lower_marks.now upper_marks.now
        rhs.now ops.now amounts.now mults.now)
        (kept_of r.now d.now c.now b.now counts.now)) n }
{
    let e = forth(n);
    where_refusal(
        e,
        e,
        n.old,
        n.before,
        rows,
        columns,
        coefs,
        costs,
        lowers,
        uppers,
        lower_marks,
        upper_marks,
        rhs,
        ops,
        amounts,
        mults,
        r,
        d,
        c,
        b,
        counts,
    )
}
