// The journal of a sheet's edits, for C and Rust (02, Ask 12).
ghost use Rattle.sheet_rules.specs.Sheet.{plan_of, kept_of, sheet_of};
ghost use Rattle.file_journal_rules.specs.Lent.{lent};
ghost use Rattle.file_journal_rules.specs.Feed.{fed_of};
ghost use Rattle.file_journal_rules.specs.Promises.{Begins, Keeps, Undoes, Feeds, Closes};

#[unsafe(no_mangle)]
pub extern "C" fn tevalumi_journal_begin(journal: &mut [u8]) -> usize
    ensures { Begins journal.old result journal.new }
{
    file_journal_push::begin(journal)
}

#[unsafe(no_mangle)]
pub extern "C" fn tevalumi_journal_edit(
    kind: usize,
    row: usize,
    column: usize,
    number: i64,
    rows: usize,
    columns: usize,
    coefs: &mut [i64],
    costs: &mut [i64],
    lowers: &mut [i64],
    uppers: &mut [i64],
    lower_marks: &mut [u8],
    upper_marks: &mut [u8],
    rhs: &mut [i64],
    ops: &[u8],
    amounts: &mut [i64],
    mults: &mut [i64],
    r: &mut [i64],
    d: &mut [i64],
    c: &mut [i64],
    b: &mut [i64],
    counts: &mut [i64],
    journal: &mut [u8],
) -> usize
    ensures { Keeps (lent (sheet_of (plan_of rows columns coefs.old costs.old
        lowers.old uppers.old lower_marks.old upper_marks.old
        rhs.old ops.now amounts.old mults.old)
        (kept_of r.old d.old c.old b.old counts.old))
        journal.old) (record { kind = kind; row = row; column = column; number = number }) result (lent
        (sheet_of (plan_of rows columns coefs.new costs.new lowers.new
        uppers.new lower_marks.new upper_marks.new rhs.new
        ops.now amounts.new mults.new)
        (kept_of r.new d.new c.new b.new counts.new))
        journal.new) }
{
    file_journal::edit(
        kind,
        row,
        column,
        number,
        rows,
        columns,
        coefs,
        costs,
        lowers,
        uppers,
        lower_marks,
        upper_marks,
        rhs,
        ops,
        amounts,
        mults,
        r,
        d,
        c,
        b,
        counts,
        journal,
    )
}

#[unsafe(no_mangle)]
pub extern "C" fn tevalumi_journal_undo(
    rows: usize,
    columns: usize,
    coefs: &mut [i64],
    costs: &mut [i64],
    lowers: &mut [i64],
    uppers: &mut [i64],
    lower_marks: &mut [u8],
    upper_marks: &mut [u8],
    rhs: &mut [i64],
    ops: &[u8],
    amounts: &mut [i64],
    mults: &mut [i64],
    r: &mut [i64],
    d: &mut [i64],
    c: &mut [i64],
    b: &mut [i64],
    counts: &mut [i64],
    journal: &mut [u8],
) -> usize
    ensures { Undoes (lent (sheet_of (plan_of rows columns coefs.old costs.old
        lowers.old uppers.old lower_marks.old upper_marks.old
        rhs.old ops.now amounts.old mults.old)
        (kept_of r.old d.old c.old b.old counts.old))
        journal.old) result (lent (sheet_of (plan_of rows columns coefs.new costs.new
        lowers.new uppers.new lower_marks.new upper_marks.new
        rhs.new ops.now amounts.new mults.new)
        (kept_of r.new d.new c.new b.new counts.new))
        journal.new) }
{
    file_journal_undo::undo(
        rows,
        columns,
        coefs,
        costs,
        lowers,
        uppers,
        lower_marks,
        upper_marks,
        rhs,
        ops,
        amounts,
        mults,
        r,
        d,
        c,
        b,
        counts,
        journal,
    )
}

#[unsafe(no_mangle)]
pub extern "C" fn tevalumi_journal_feed(
    piece: &[u8],
    rows: usize,
    columns: usize,
    coefs: &mut [i64],
    costs: &mut [i64],
    lowers: &mut [i64],
    uppers: &mut [i64],
    lower_marks: &mut [u8],
    upper_marks: &mut [u8],
    rhs: &mut [i64],
    ops: &[u8],
    amounts: &mut [i64],
    mults: &mut [i64],
    r: &mut [i64],
    d: &mut [i64],
    c: &mut [i64],
    b: &mut [i64],
    counts: &mut [i64],
    waiting: &mut [u8],
    cells: &mut [usize],
) -> usize
    ensures { Feeds piece.now
        (sheet_of (plan_of rows columns coefs.old costs.old lowers.old
        uppers.old lower_marks.old upper_marks.old rhs.old
        ops.now amounts.old mults.old)
        (kept_of r.old d.old c.old b.old counts.old))
        waiting.old cells.old (fed_of result
        (sheet_of (plan_of rows columns coefs.new costs.new lowers.new
        uppers.new lower_marks.new upper_marks.new rhs.new
        ops.now amounts.new mults.new)
        (kept_of r.new d.new c.new b.new counts.new))
        waiting.new cells.new) }
{
    file_journal_feed::feed(
        piece,
        rows,
        columns,
        coefs,
        costs,
        lowers,
        uppers,
        lower_marks,
        upper_marks,
        rhs,
        ops,
        amounts,
        mults,
        r,
        d,
        c,
        b,
        counts,
        waiting,
        cells,
    )
}

#[unsafe(no_mangle)]
pub extern "C" fn tevalumi_journal_close(cells: &[usize]) -> usize
    ensures { Closes cells.now result }
{
    file_journal_cells::close(cells)
}
