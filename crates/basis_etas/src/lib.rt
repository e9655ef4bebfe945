// The eta matrices' part of the column solve and of the row solve.
// From minilp 0.2.2, src/solver.rs, EtaMatrices and BasisSolver, Apache-2.0, changed: the vector and the store are lent
// arrays, and the vector is loaded by the caller.
#![tactic(auto)]

ghost use Rattle.std.specs.Prelude.{◌≡◌};
ghost use Rattle.doubles.specs.Limits.{places};
ghost use Rattle.sparse.specs.Scattered.{sv, Good, dot};
ghost use Rattle.rules.specs.Parts.{etas_of};
ghost use Rattle.rules.specs.Basis.{eta_turn, solve_etas, eta_turn_transp, solve_etas_transp};
ghost use Rattle.basis_etas.specs.Store.{Readable, ReadableCol};

// The eta matrix k: the value at its leaving row, times its column, is taken off.
fn eta_turn(
    values: &mut [f64; doubles::PLACES],
    marks: &mut [bool; doubles::PLACES],
    list: &mut [usize; doubles::PLACES],
    count: usize,
    leaving: &[usize],
    starts: &[usize],
    rows: &[usize],
    coeffs: &[f64],
    k: usize,
) -> usize
    requires { Good places (sv values.old marks.old list.old count) × ReadableCol
        (etas_of leaving.now starts.now rows.now coeffs.now) k }
    ensures { sv values.new marks.new list.new result ≡ eta_turn
        (etas_of leaving.now starts.now rows.now coeffs.now) k
        (sv values.old marks.old list.old count) }
{
    let r = leaving[k];
    let coeff = values[r];
    let a = starts[k];
    let e = starts[k + 1];
    sparse::take_off(
        values,
        marks,
        list,
        count,
        &rows[a..e],
        &coeffs[a..e],
        coeff,
    )
}

// The eta matrix k, transposed: its column times the vector is taken off at its leaving row, which is touched even
// where that sum is 0.0.
fn eta_turn_transp(
    values: &mut [f64; doubles::PLACES],
    marks: &mut [bool; doubles::PLACES],
    list: &mut [usize; doubles::PLACES],
    count: usize,
    leaving: &[usize],
    starts: &[usize],
    rows: &[usize],
    coeffs: &[f64],
    k: usize,
) -> usize
    requires { Good places (sv values.old marks.old list.old count) × ReadableCol
        (etas_of leaving.now starts.now rows.now coeffs.now) k }
    ensures { sv values.new marks.new list.new result ≡ eta_turn_transp
        (etas_of leaving.now starts.now rows.now coeffs.now) k
        (sv values.old marks.old list.old count) }
{
    let a = starts[k];
    let e = starts[k + 1];
    let coeff = sparse::dot(&rows[a..e], &coeffs[a..e], values);
    let r = leaving[k];
    sparse::sub_at(values, marks, list, count, r, coeff)
}

// The first n eta matrices, in order.
pub fn solve_etas(
    values: &mut [f64; doubles::PLACES],
    marks: &mut [bool; doubles::PLACES],
    list: &mut [usize; doubles::PLACES],
    count: usize,
    leaving: &[usize],
    starts: &[usize],
    rows: &[usize],
    coeffs: &[f64],
    n: usize,
) -> usize
    requires { Good places (sv values.old marks.old list.old count) × Readable
        (etas_of leaving.now starts.now rows.now coeffs.now) n }
    ensures { sv values.new marks.new list.new result ≡ solve_etas
        (etas_of leaving.now starts.now rows.now coeffs.now) n
        (sv values.old marks.old list.old count) }
{
    let mut c = count;
    for k in 0..n {
        c = eta_turn(values, marks, list, c, leaving, starts, rows, coeffs, k);
    }
    c
}

// The first n eta matrices, transposed, in reverse.
pub fn solve_etas_transp(
    values: &mut [f64; doubles::PLACES],
    marks: &mut [bool; doubles::PLACES],
    list: &mut [usize; doubles::PLACES],
    count: usize,
    leaving: &[usize],
    starts: &[usize],
    rows: &[usize],
    coeffs: &[f64],
    n: usize,
) -> usize
    requires { Good places (sv values.old marks.old list.old count) × Readable
        (etas_of leaving.now starts.now rows.now coeffs.now) n }
    ensures { sv values.new marks.new list.new result ≡ solve_etas_transp
        (etas_of leaving.now starts.now rows.now coeffs.now) n
        (sv values.old marks.old list.old count) }
{
    let mut c = count;
    for k in (0..n).rev() {
        c = eta_turn_transp(values, marks, list, c, leaving, starts, rows, coeffs, k);
    }
    c
}
