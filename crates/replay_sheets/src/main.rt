// Reads sheets with their edits from standard input, plays them, and writes docs/EXCHANGE.md's answer lines without
// their names. The reference's answers are the file `stdout` beside this folder. The input is words (crate words): how
// many sheets; then for each its rows, columns and steps, the ten arrays of the plan in their order, each with its
// length; then the steps, each of five words: the number of the array that it writes, or 15 for an edit; the index or
// the kind; the row; the column; the number. Opening is lent arrays of the lengths that the input says. An edit and a
// verdict are lent longer ones: what stands past a sheet's size is no part of it.
#![tactic(auto)]

ghost use Rattle.words.specs.Counts.{Counts};

use std::io;
use std::io::{Read, Write};
use words::Cell;
use words_sheet::{COEFS, COLUMNS, ROWS, show_kept, show_plan};

// Writes the cell that a word stands for, if the array has it.
fn poke<T: Cell>(out: &mut [T], at: usize, word: u64) {
    if let Some(cell) = out.get_mut(at) {
        *cell = T::of_word(word);
    }
}

fn disturb(
    which: usize,
    at: usize,
    word: u64,
    coefs: &mut [i64; COEFS],
    costs: &mut [i64; COLUMNS],
    lowers: &mut [i64; COLUMNS],
    uppers: &mut [i64; COLUMNS],
    lower_marks: &mut [u8; COLUMNS],
    upper_marks: &mut [u8; COLUMNS],
    rhs: &mut [i64; ROWS],
    ops: &mut [u8; ROWS],
    amounts: &mut [i64; COLUMNS],
    mults: &mut [i64; ROWS],
    r: &mut [i64; ROWS],
    d: &mut [i64; COLUMNS],
    c: &mut [i64; 1],
    b: &mut [i64; 1],
    counts: &mut [i64; 4],
) {
    match which {
        0 => poke(coefs, at, word),
        1 => poke(costs, at, word),
        2 => poke(lowers, at, word),
        3 => poke(uppers, at, word),
        4 => poke(lower_marks, at, word),
        5 => poke(upper_marks, at, word),
        6 => poke(rhs, at, word),
        7 => poke(ops, at, word),
        8 => poke(amounts, at, word),
        9 => poke(mults, at, word),
        10 => poke(r, at, word),
        11 => poke(d, at, word),
        12 => poke(c, at, word),
        13 => poke(b, at, word),
        14 => poke(counts, at, word),
        _ => {}
    }
}

fn step<R: Read, W: Write>(
    input: &mut R,
    out: &mut W,
    rows: usize,
    columns: usize,
    coefs: &mut [i64; COEFS],
    costs: &mut [i64; COLUMNS],
    lowers: &mut [i64; COLUMNS],
    uppers: &mut [i64; COLUMNS],
    lower_marks: &mut [u8; COLUMNS],
    upper_marks: &mut [u8; COLUMNS],
    rhs: &mut [i64; ROWS],
    ops: &mut [u8; ROWS],
    amounts: &mut [i64; COLUMNS],
    mults: &mut [i64; ROWS],
    r: &mut [i64; ROWS],
    d: &mut [i64; COLUMNS],
    c: &mut [i64; 1],
    b: &mut [i64; 1],
    counts: &mut [i64; 4],
) -> io::Result<()> {
    let which = words::next_place(input);
    let kind = words::next_place(input);
    let row = words::next_place(input);
    let column = words::next_place(input);
    let word = words::next(input);
    disturb(
        which,
        kind,
        word,
        coefs,
        costs,
        lowers,
        uppers,
        lower_marks,
        upper_marks,
        rhs,
        ops,
        amounts,
        mults,
        r,
        d,
        c,
        b,
        counts,
    );
    if which != 15 {
        return Ok(());
    }
    let status = sheet::edit(
        kind,
        row,
        column,
        i64::of_word(word),
        rows,
        columns,
        coefs,
        costs,
        lowers,
        uppers,
        lower_marks,
        upper_marks,
        rhs,
        ops,
        amounts,
        mults,
        r,
        d,
        c,
        b,
        counts,
    );
    words::text(out, b"edit")?;
    words::place(out, status)?;
    show_kept(
        out,
        rows,
        columns,
        coefs,
        costs,
        lowers,
        uppers,
        lower_marks,
        upper_marks,
        rhs,
        ops,
        amounts,
        mults,
        r,
        d,
        c,
        b,
        counts,
    )
}

fn play<R: Read, W: Write>(
    input: &mut R,
    out: &mut W,
    steps: u64,
    rows: usize,
    columns: usize,
    coefs: &mut [i64; COEFS],
    costs: &mut [i64; COLUMNS],
    lowers: &mut [i64; COLUMNS],
    uppers: &mut [i64; COLUMNS],
    lower_marks: &mut [u8; COLUMNS],
    upper_marks: &mut [u8; COLUMNS],
    rhs: &mut [i64; ROWS],
    ops: &mut [u8; ROWS],
    amounts: &mut [i64; COLUMNS],
    mults: &mut [i64; ROWS],
    r: &mut [i64; ROWS],
    d: &mut [i64; COLUMNS],
    c: &mut [i64; 1],
    b: &mut [i64; 1],
    counts: &mut [i64; 4],
) -> io::Result<()> {
    for _ in 0..steps {
        step(
            input,
            out,
            rows,
            columns,
            coefs,
            costs,
            lowers,
            uppers,
            lower_marks,
            upper_marks,
            rhs,
            ops,
            amounts,
            mults,
            r,
            d,
            c,
            b,
            counts,
        )?;
    }
    Ok(())
}

fn sheet<R: Read, W: Write>(input: &mut R, out: &mut W) -> io::Result<()> {
    let mut coefs = [0i64; COEFS];
    let mut costs = [0i64; COLUMNS];
    let mut lowers = [0i64; COLUMNS];
    let mut uppers = [0i64; COLUMNS];
    let mut lower_marks = [0u8; COLUMNS];
    let mut upper_marks = [0u8; COLUMNS];
    let mut rhs = [0i64; ROWS];
    let mut ops = [0u8; ROWS];
    let mut amounts = [0i64; COLUMNS];
    let mut mults = [0i64; ROWS];
    let mut r = [0i64; ROWS];
    let mut d = [0i64; COLUMNS];
    let mut c = [0i64; 1];
    let mut b = [0i64; 1];
    let mut counts = [0i64; 4];
    let rows = words::next_place(input);
    let columns = words::next_place(input);
    let steps = words::next(input);
    let n_coefs = words::read(input, &mut coefs);
    let n_costs = words::read(input, &mut costs);
    let n_lowers = words::read(input, &mut lowers);
    let n_uppers = words::read(input, &mut uppers);
    let n_lower_marks = words::read(input, &mut lower_marks);
    let n_upper_marks = words::read(input, &mut upper_marks);
    let n_rights = words::read(input, &mut rhs);
    let n_ops = words::read(input, &mut ops);
    let n_amounts = words::read(input, &mut amounts);
    let n_mults = words::read(input, &mut mults);
    let status = sheet::open(
        rows,
        columns,
        &coefs[..n_coefs],
        &costs[..n_costs],
        &lowers[..n_lowers],
        &uppers[..n_uppers],
        &lower_marks[..n_lower_marks],
        &upper_marks[..n_upper_marks],
        &rhs[..n_rights],
        &ops[..n_ops],
        &amounts[..n_amounts],
        &mults[..n_mults],
        &mut r,
        &mut d,
        &mut c,
        &mut b,
        &mut counts,
    );
    words::text(out, b"open")?;
    words::place(out, status)?;
    if status != 0 {
        words::end_line(out)?;
        return Ok(());
    }
    show_kept(
        out,
        rows,
        columns,
        &coefs,
        &costs,
        &lowers,
        &uppers,
        &lower_marks,
        &upper_marks,
        &rhs,
        &ops,
        &amounts,
        &mults,
        &r,
        &d,
        &c,
        &b,
        &counts,
    )?;
    play(
        input,
        out,
        steps,
        rows,
        columns,
        &mut coefs,
        &mut costs,
        &mut lowers,
        &mut uppers,
        &mut lower_marks,
        &mut upper_marks,
        &mut rhs,
        &mut ops,
        &mut amounts,
        &mut mults,
        &mut r,
        &mut d,
        &mut c,
        &mut b,
        &mut counts,
    )?;
    show_plan(
        out,
        n_coefs,
        n_costs,
        n_lowers,
        n_uppers,
        n_lower_marks,
        n_upper_marks,
        n_rights,
        n_ops,
        n_amounts,
        n_mults,
        &coefs,
        &costs,
        &lowers,
        &uppers,
        &lower_marks,
        &upper_marks,
        &rhs,
        &ops,
        &amounts,
        &mults,
    )
}

fn main(rt: HostRuntime) -> io::Result<()> {
    let mut input = rt.reader();
    let mut out = io::writer(&rt);
    let count = words::next(&mut input);
    for _ in 0..count {
        sheet(&mut input, &mut out)?;
    }
    Ok(())
}
