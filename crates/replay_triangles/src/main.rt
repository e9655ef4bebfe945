// Reads triangles from standard input, solves each, sparse and dense, and writes docs/EXCHANGE.md's answer line without
// its name. The oracle's answers are the file `stdout` beside this folder. The input is words (crate words): how many
// triangles; then for each whether it is lower, its size, its entries, whether it has a diagonal, how many places are
// listed, and the lent arrays, each with its length: starts, rows, numbers, diagonal, list, values, and the values for
// the dense solve.
#![tactic(auto)]

use std::io;
use std::io::{Read, Write};

// Room past the limits: a triangle may say that it is too large.
const PLACES: usize = doubles::MAX_ROWS + 16;

const ENTRIES: usize = doubles::MAX_TRI_ENTRIES + 16;

fn dense<W: Write>(
    out: &mut W,
    lower: bool,
    size: usize,
    entries: usize,
    starts: &[usize],
    rows: &[usize],
    vals: &[f64],
    has_diag: bool,
    diag: &[f64],
    values: &mut [f64],
) -> io::Result<()> {
    words::text(out, b" dense")?;
    let a = lu::tri_solve_dense(
        lower, size, entries, starts, rows, vals, has_diag, diag, values,
    );
    match a {
        lu::Answer::Solved(n) => words::list(out, values, n),
        lu::Answer::BadTriangle => words::text(out, b" 1"),
        lu::Answer::NotFinite => words::text(out, b" 2"),
        lu::Answer::BadList => words::text(out, b" 3"),
    }
}

// Whether the dense solve has its answer beside this one: it has no list that can be bad.
fn sparse<W: Write>(
    out: &mut W,
    lower: bool,
    size: usize,
    entries: usize,
    starts: &[usize],
    rows: &[usize],
    vals: &[f64],
    has_diag: bool,
    diag: &[f64],
    list: &mut [usize],
    listed: usize,
    values: &mut [f64],
) -> io::Result<bool> {
    let a = lu::tri_solve_sparse(
        lower, size, entries, starts, rows, vals, has_diag, diag, list, listed, values,
    );
    match a {
        lu::Answer::Solved(n) => {
            words::text(out, b"0 list")?;
            words::list(out, list, n)?;
            words::text(out, b" sparse")?;
            words::list(out, values, size)?;
            Ok(true)
        }
        lu::Answer::BadTriangle => {
            words::text(out, b"1")?;
            Ok(true)
        }
        lu::Answer::NotFinite => {
            words::text(out, b"2")?;
            Ok(true)
        }
        lu::Answer::BadList => {
            words::text(out, b"3")?;
            Ok(false)
        }
    }
}

fn triangle<R: Read, W: Write>(input: &mut R, out: &mut W) -> io::Result<()> {
    let mut starts = [0usize; PLACES];
    let mut rows = [0usize; ENTRIES];
    let mut vals = [0.0; ENTRIES];
    let mut diag = [0.0; PLACES];
    let mut list = [0usize; PLACES];
    let mut values = [0.0; PLACES];
    let mut all = [0.0; PLACES];
    let lower = words::next(input) != 0;
    let size = words::next_place(input);
    let entries = words::next_place(input);
    let has_diag = words::next(input) != 0;
    let listed = words::next_place(input);
    let s = words::read(input, &mut starts);
    let r = words::read(input, &mut rows);
    let v = words::read(input, &mut vals);
    let d = words::read(input, &mut diag);
    let l = words::read(input, &mut list);
    let n = words::read(input, &mut values);
    let m = words::read(input, &mut all);
    let both = sparse(
        out,
        lower,
        size,
        entries,
        &starts[..s],
        &rows[..r],
        &vals[..v],
        has_diag,
        &diag[..d],
        &mut list[..l],
        listed,
        &mut values[..n],
    )?;
    if both {
        dense(
            out,
            lower,
            size,
            entries,
            &starts[..s],
            &rows[..r],
            &vals[..v],
            has_diag,
            &diag[..d],
            &mut all[..m],
        )?;
    }
    words::end_line(out)
}

fn main(rt: HostRuntime) -> io::Result<()> {
    let mut input = rt.reader();
    let mut out = io::writer(&rt);
    let count = words::next(&mut input);
    for _ in 0..count {
        triangle(&mut input, &mut out)?;
    }
    Ok(())
}
