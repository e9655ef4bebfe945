// Reads eta stores and vectors from standard input, solves them, and writes the vectors, for comparison with the
// oracle's BasisSolver. The input is words of eight bytes, the lowest byte first: how many stores; then for each its
// columns, entries and listed places, the leaving rows, the starts, the row numbers and the bits of the coefficients,
// the listed places and the bits of their values.
#![tactic(auto)]

ghost use Rattle.std.specs.Prelude.{◌≡◌, ◌≤◌, ltb, length};
ghost use Rattle.doubles.specs.Limits.{places};
ghost use Rattle.doubles.specs.Lists.{◌#◌};
ghost use Rattle.doubles.specs.Loop.{all};
ghost use Rattle.sparse.specs.Scattered.{Within};
ghost use Rattle.rules.specs.Parts.{etas_of};
ghost use Rattle.basis_etas.specs.Store.{Readable};

use std::io;
use std::io::{Read, Write};

// Whether every cell is a place of the vector.
fn all_places(at: &[usize]) -> bool
    ensures { result ≡ all (length at.now) (λ k. ltb (at.now # k) places) }
{
    at.iter().all(|&i| i < doubles::PLACES)
}

// How many places are listed, and each with the bits of its value, in listed order.
fn show<W: Write>(
    out: &mut W,
    values: &[f64; doubles::PLACES],
    list: &[usize; doubles::PLACES],
    count: usize,
) -> io::Result<()> {
    words::hex(out, count as u64, 0)?;
    words::end_line(out)?;
    for place in list.iter().take(count) {
        let i = *place;
        if i < doubles::PLACES {
            words::hex(out, i as u64, 0)?;
            words::double(out, values[i])?;
            words::end_line(out)?;
        }
    }
    Ok(())
}

fn column_solve<W: Write>(
    out: &mut W,
    leaving: &[usize],
    starts: &[usize],
    rows: &[usize],
    coeffs: &[f64],
    n: usize,
    at: &[usize],
    xs: &[f64],
    listed: usize,
) -> io::Result<()>
    requires { Readable (etas_of leaving.now starts.now rows.now coeffs.now) n × (listed ≤ length at.now) ×
        (listed ≤ length xs.now) × Within places listed at.now }
{
    let mut values = [0.0; doubles::PLACES];
    let mut marks = [false; doubles::PLACES];
    let mut list = [0usize; doubles::PLACES];
    let count = sparse::load(&mut values, &mut marks, &mut list, 0, at, xs, listed);
    let c = basis_etas::solve_etas(
        &mut values,
        &mut marks,
        &mut list,
        count,
        leaving,
        starts,
        rows,
        coeffs,
        n,
    );
    show(out, &values, &list, c)
}

fn row_solve<W: Write>(
    out: &mut W,
    leaving: &[usize],
    starts: &[usize],
    rows: &[usize],
    coeffs: &[f64],
    n: usize,
    at: &[usize],
    xs: &[f64],
    listed: usize,
) -> io::Result<()>
    requires { Readable (etas_of leaving.now starts.now rows.now coeffs.now) n × (listed ≤ length at.now) ×
        (listed ≤ length xs.now) × Within places listed at.now }
{
    let mut values = [0.0; doubles::PLACES];
    let mut marks = [false; doubles::PLACES];
    let mut list = [0usize; doubles::PLACES];
    let count = sparse::load(&mut values, &mut marks, &mut list, 0, at, xs, listed);
    let c = basis_etas::solve_etas_transp(
        &mut values,
        &mut marks,
        &mut list,
        count,
        leaving,
        starts,
        rows,
        coeffs,
        n,
    );
    show(out, &values, &list, c)
}

// Both solves of a store that can be read; nothing of another.
fn solve_both<W: Write>(
    out: &mut W,
    leaving: &[usize],
    starts: &[usize],
    rows: &[usize],
    coeffs: &[f64],
    n: usize,
    entries: usize,
    at: &[usize],
    xs: &[f64],
    listed: usize,
) -> io::Result<()> {
    if !((n <= leaving.len())
        & (n < starts.len())
        & (entries <= rows.len())
        & (entries <= coeffs.len())
        & (listed <= at.len())
        & (listed <= xs.len()))
    {
        return Ok(());
    }
    if !(plan::starts_rise(n, entries, starts)
        & all_places(leaving)
        & all_places(rows)
        & all_places(at))
    {
        return Ok(());
    }
    column_solve(out, leaving, starts, rows, coeffs, n, at, xs, listed)?;
    row_solve(out, leaving, starts, rows, coeffs, n, at, xs, listed)
}

fn store<R: Read, W: Write>(input: &mut R, out: &mut W) -> io::Result<()> {
    let mut leaving = [0usize; doubles::ETA_COLUMNS];
    let mut starts = [0usize; doubles::ETA_COLUMNS + 1];
    let mut rows = [0usize; doubles::ETA_ENTRIES];
    let mut coeffs = [0.0; doubles::ETA_ENTRIES];
    let mut at = [0usize; doubles::PLACES];
    let mut xs = [0.0; doubles::PLACES];
    let n = words::next_place(input);
    let entries = words::next_place(input);
    let listed = words::next_place(input);
    if doubles::ETA_COLUMNS < n {
        return Ok(());
    }
    words::fill(input, &mut leaving, n);
    words::fill(input, &mut starts, n + 1);
    words::fill(input, &mut rows, entries);
    words::fill(input, &mut coeffs, entries);
    words::fill(input, &mut at, listed);
    words::fill(input, &mut xs, listed);
    solve_both(
        out, &leaving, &starts, &rows, &coeffs, n, entries, &at, &xs, listed,
    )
}

fn main(rt: HostRuntime) -> io::Result<()> {
    let mut input = rt.reader();
    let mut out = io::writer(&rt);
    let count = words::next(&mut input);
    for _ in 0..count {
        store(&mut input, &mut out)?;
    }
    Ok(())
}
