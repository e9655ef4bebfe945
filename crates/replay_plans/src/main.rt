// Reads plans from standard input, solves each, and writes docs/EXCHANGE.md's answer line with the state, without its
// name. The oracle's answers are the file `stdout` beside this folder. The input is words (crate words): how many
// plans; then for each its columns, rows, entries, budget and tolerance, and the eight arrays of the plan in their
// order, each with its length. What the solve writes is lent longer than needed.
#![tactic(auto)]

ghost use Rattle.std.specs.Prelude.{◌≡◌, ◌+◌, ◌≤◌, length};
ghost use Rattle.doubles.specs.Limits.{max_rows};
ghost use Rattle.lu_factor_rules.specs.Packed.{all_factor_numbers, all_factor_coeffs};
ghost use Rattle.state.specs.Memory.{numbers_end, doubles_end};

use rules::Answer;
use std::io;
use std::io::{Read, Write};

// Room past the limits: a plan may say that it is too large.
const COLUMNS: usize = doubles::MAX_COLUMNS + 16;

const ROWS: usize = doubles::MAX_ROWS + 16;

const ENTRIES: usize = doubles::MAX_ENTRIES + 16;

const VALUES: usize = doubles::VARS + 32;

const NUMBERS: usize = state::NUMBERS + 16;

const DOUBLES: usize = state::DOUBLES + 16;

const FACTOR_NUMBERS: usize = lu_factor_rules::FACTOR_NUMBERS + 16;

const FACTOR_COEFFS: usize = lu_factor_rules::FACTOR_COEFFS + 16;

// What a line shows after the answer.
#[derive(Clone, Copy)]
enum Shown {
    Nothing,
    State,
    ValuesToo,
}

fn refused<W: Write>(out: &mut W, number_and_place: &[u8]) -> io::Result<Shown> {
    words::text(out, number_and_place)?;
    words::text(out, b" 0000000000000000 0")?;
    Ok(Shown::Nothing)
}

// A refusal that names a place.
fn refused_at<W: Write>(out: &mut W, number_and_place: &[u8], at: usize) -> io::Result<Shown> {
    words::text(out, number_and_place)?;
    words::decimal(out, at as u64)?;
    words::text(out, b" 0000000000000000 0")?;
    Ok(Shown::Nothing)
}

fn refused_entry<W: Write>(out: &mut W, row: usize, place: usize) -> io::Result<Shown> {
    words::text(out, b"3 e:")?;
    words::decimal(out, row as u64)?;
    words::text(out, b":")?;
    words::decimal(out, place as u64)?;
    words::text(out, b" 0000000000000000 0")?;
    Ok(Shown::Nothing)
}

fn ended<W: Write>(
    out: &mut W,
    number_and_place: &[u8],
    objective: f64,
    steps: usize,
) -> io::Result<Shown> {
    words::text(out, number_and_place)?;
    words::double(out, objective)?;
    words::place(out, steps)?;
    Ok(Shown::State)
}

// 26, with the leaving row.
fn infeasible<W: Write>(
    out: &mut W,
    row: usize,
    objective: f64,
    steps: usize,
) -> io::Result<Shown> {
    words::text(out, b"26 k:")?;
    words::decimal(out, row as u64)?;
    words::double(out, objective)?;
    words::place(out, steps)?;
    Ok(Shown::State)
}

// The final check's rejection.
fn rejected<W: Write>(
    out: &mut W,
    number_and_place: &[u8],
    at: usize,
    excess: f64,
    objective: f64,
    steps: usize,
) -> io::Result<Shown> {
    words::text(out, number_and_place)?;
    words::decimal(out, at as u64)?;
    words::text(out, b":")?;
    words::hex(out, words::bits_of(excess), 16)?;
    words::double(out, objective)?;
    words::place(out, steps)?;
    Ok(Shown::State)
}

fn optimal<W: Write>(out: &mut W, excess: f64, objective: f64, steps: usize) -> io::Result<Shown> {
    words::text(out, b"0 x:")?;
    words::hex(out, words::bits_of(excess), 16)?;
    words::double(out, objective)?;
    words::place(out, steps)?;
    Ok(Shown::ValuesToo)
}

fn show_answer<W: Write>(out: &mut W, answer: Answer) -> io::Result<Shown> {
    match answer {
        Answer::Optimal {
            objective,
            steps,
            excess,
        } => optimal(out, excess, objective, steps),
        Answer::BadSize => refused(out, b"1 -"),
        Answer::BadNumber => refused(out, b"2 -"),
        Answer::BadEntry { row, place } => refused_entry(out, row, place),
        Answer::CrossedBounds { column } => refused_at(out, b"4 c:", column),
        Answer::FalseEmptyRow { row } => refused_at(out, b"5 r:", row),
        Answer::StartNotFinite => refused(out, b"6 -"),
        Answer::SlackOutside => refused(out, b"7 -"),
        Answer::Unbounded { objective, steps } => ended(out, b"20 -", objective, steps),
        Answer::Spent { objective, steps } => ended(out, b"21 -", objective, steps),
        Answer::NotFinite { objective, steps } => ended(out, b"23 -", objective, steps),
        Answer::Singular { objective, steps } => ended(out, b"25 -", objective, steps),
        Answer::Infeasible {
            objective,
            steps,
            row,
        } => infeasible(out, row, objective, steps),
        Answer::ValueRejected {
            objective,
            steps,
            value,
            excess,
        } => rejected(out, b"24 v:", value, excess, objective, steps),
        Answer::RowRejected {
            objective,
            steps,
            row,
            excess,
        } => rejected(out, b"24 k:", row, excess, objective, steps),
    }
}

fn show_values<W: Write>(
    out: &mut W,
    columns: usize,
    kept_rows: usize,
    values: &[f64; VALUES],
) -> io::Result<()> {
    let n = words::least(columns, doubles::MAX_COLUMNS)
        + words::least(kept_rows, doubles::MAX_ROWS);
    words::place(out, n)?;
    words::list(out, values, n)
}

// One start more than there are eta columns.
fn starts_shown(etas: usize) -> usize {
    words::least(etas, doubles::ETA_COLUMNS) + 1
}

fn show_state<W: Write>(
    out: &mut W,
    columns: usize,
    numbers: &[usize],
    doubles: &[f64],
) -> io::Result<()>
    requires { (length numbers.now ≡ numbers_end + 16) × (length doubles.now ≡ doubles_end + 16) }
{
    let m = numbers[state::COUNTS];
    words::text(out, b" | kept")?;
    words::list(out, &numbers[state::KEPT..state::KEPT_END], m)?;
    words::text(out, b" basic")?;
    words::list(out, &numbers[state::BASIC_VARS..state::BASIC_VARS_END], m)?;
    words::text(out, b" nonbasic")?;
    words::list(out, &numbers[state::NB_VARS..state::NB_VARS_END], columns)?;
    words::text(out, b" bval")?;
    words::list(
        out,
        &doubles[state::BASIC_VAR_VALS..state::BASIC_VAR_VALS_END],
        m,
    )?;
    words::text(out, b" nval")?;
    words::list(
        out,
        &doubles[state::NB_VAR_VALS..state::NB_VAR_VALS_END],
        columns,
    )?;
    words::text(out, b" price")?;
    words::list(out, &doubles[state::PRICES..state::PRICES_END], columns)
}

fn show_rest<W: Write>(
    out: &mut W,
    columns: usize,
    numbers: &[usize],
    doubles: &[f64],
) -> io::Result<()>
    requires { (length numbers.now ≡ numbers_end + 16) × (length doubles.now ≡ doubles_end + 16) }
{
    let etas = numbers[state::COUNTS + 1];
    let entries = numbers[state::COUNTS + 2];
    words::text(out, b" norm")?;
    words::list(out, &doubles[state::NORMS..state::NORMS_END], columns)?;
    words::text(out, b" flags")?;
    words::list(out, &numbers[state::FLAGS..state::FLAGS_END], columns)?;
    words::text(out, b" etarow")?;
    words::list(
        out,
        &numbers[state::ETA_LEAVING..state::ETA_LEAVING_END],
        etas,
    )?;
    words::text(out, b" etaptr")?;
    words::list(
        out,
        &numbers[state::ETA_STARTS..state::ETA_STARTS_END],
        starts_shown(etas),
    )?;
    words::text(out, b" etaidx")?;
    words::list(out, &numbers[state::ETA_ROWS..state::ETA_ROWS_END], entries)?;
    words::text(out, b" etaval")?;
    words::list(
        out,
        &doubles[state::ETA_COEFFS..state::ETA_COEFFS_END],
        entries,
    )
}

// L and U by columns, with the diagonal. Each has one start more than there are columns.
fn show_factor<W: Write>(
    out: &mut W,
    rows: usize,
    numbers: &[usize],
    coeffs: &[f64],
) -> io::Result<()>
    requires { (length numbers.now ≡ all_factor_numbers + 16) × (length coeffs.now ≡ all_factor_coeffs + 16) }
{
    let m = words::least(rows, doubles::MAX_ROWS);
    let lower = numbers[lu_factor_rules::L_STARTS + m];
    let upper = numbers[lu_factor_rules::U_STARTS + m];
    words::text(out, b" pivots")?;
    words::list(
        out,
        &numbers[lu_factor_rules::ORDER..lu_factor_rules::ORDER_END],
        m,
    )?;
    words::text(out, b" lptr")?;
    words::list(
        out,
        &numbers[lu_factor_rules::L_STARTS..lu_factor_rules::L_STARTS_END],
        m + 1,
    )?;
    words::text(out, b" lidx")?;
    words::list(
        out,
        &numbers[lu_factor_rules::L_ROWS..lu_factor_rules::L_ROWS_END],
        lower,
    )?;
    words::text(out, b" lval")?;
    words::list(
        out,
        &coeffs[lu_factor_rules::L_COEFFS..lu_factor_rules::L_COEFFS_END],
        lower,
    )?;
    show_upper(out, m, upper, numbers, coeffs)
}

fn show_upper<W: Write>(
    out: &mut W,
    m: usize,
    upper: usize,
    numbers: &[usize],
    coeffs: &[f64],
) -> io::Result<()>
    requires { (length numbers.now ≡ all_factor_numbers + 16) × (length coeffs.now ≡ all_factor_coeffs + 16) ×
        (m ≤ max_rows) }
{
    words::text(out, b" uptr")?;
    words::list(
        out,
        &numbers[lu_factor_rules::U_STARTS..lu_factor_rules::U_STARTS_END],
        m + 1,
    )?;
    words::text(out, b" uidx")?;
    words::list(
        out,
        &numbers[lu_factor_rules::U_ROWS..lu_factor_rules::U_ROWS_END],
        upper,
    )?;
    words::text(out, b" uval")?;
    words::list(
        out,
        &coeffs[lu_factor_rules::U_COEFFS..lu_factor_rules::U_COEFFS_END],
        upper,
    )?;
    words::text(out, b" udiag")?;
    words::list(
        out,
        &coeffs[lu_factor_rules::DIAG..lu_factor_rules::DIAG_END],
        m,
    )
}

fn show<W: Write>(
    out: &mut W,
    answer: Answer,
    columns: usize,
    values: &[f64; VALUES],
    numbers: &[usize],
    doubles: &[f64],
    factor_numbers: &[usize],
    factor_coeffs: &[f64],
) -> io::Result<()>
    requires { (length numbers.now ≡ numbers_end + 16) × (length doubles.now ≡ doubles_end + 16) ×
        (length factor_numbers.now ≡ all_factor_numbers + 16) × (length factor_coeffs.now ≡ all_factor_coeffs + 16) }
{
    let shown = show_answer(out, answer)?;
    match shown {
        Shown::Nothing => {
            words::text(out, b" 0")?;
            return Ok(());
        }
        Shown::State => words::text(out, b" 0")?,
        Shown::ValuesToo => show_values(out, columns, numbers[state::COUNTS], values)?,
    }
    show_state(out, columns, numbers, doubles)?;
    show_rest(out, columns, numbers, doubles)?;
    let rows = numbers[state::COUNTS];
    words::text(out, b" factor")?;
    if numbers[state::COUNTS + 5] == 0 {
        words::text(out, b" none")?;
    } else {
        show_factor(out, rows, factor_numbers, factor_coeffs)?;
    }
    words::text(out, b" dnorm")?;
    words::list(
        out,
        &doubles[state::DUAL_NORMS..state::DUAL_NORMS_END],
        rows,
    )
}

fn solved<W: Write>(
    out: &mut W,
    columns: usize,
    rows: usize,
    entries: usize,
    budget: usize,
    tolerance: f64,
    costs: &[f64],
    lowers: &[f64],
    uppers: &[f64],
    starts: &[usize],
    cols: &[usize],
    coeffs: &[f64],
    ops: &[u8],
    rhs: &[f64],
) -> io::Result<()> {
    let mut values = [0.0; VALUES];
    let mut numbers = [0usize; NUMBERS];
    let mut doubles = [0.0; DOUBLES];
    let mut factor_numbers = [0usize; FACTOR_NUMBERS];
    let mut factor_coeffs = [0.0; FACTOR_COEFFS];
    let answer = solve::solve(
        columns,
        rows,
        entries,
        budget,
        tolerance,
        costs,
        lowers,
        uppers,
        starts,
        cols,
        coeffs,
        ops,
        rhs,
        &mut values,
        &mut numbers,
        &mut doubles,
        &mut factor_numbers,
        &mut factor_coeffs,
    );
    show(
        out,
        answer,
        columns,
        &values,
        &numbers,
        &doubles,
        &factor_numbers,
        &factor_coeffs,
    )?;
    words::end_line(out)
}

fn plan<R: Read, W: Write>(input: &mut R, out: &mut W) -> io::Result<()> {
    let mut costs = [0.0; COLUMNS];
    let mut lowers = [0.0; COLUMNS];
    let mut uppers = [0.0; COLUMNS];
    let mut starts = [0usize; ROWS];
    let mut cols = [0usize; ENTRIES];
    let mut coeffs = [0.0; ENTRIES];
    let mut ops = [0u8; ROWS];
    let mut rhs = [0.0; ROWS];
    let columns = words::next_place(input);
    let rows = words::next_place(input);
    let entries = words::next_place(input);
    let budget = words::next_place(input);
    let tolerance = words::next_double(input);
    let n_costs = words::read(input, &mut costs);
    let n_lowers = words::read(input, &mut lowers);
    let n_uppers = words::read(input, &mut uppers);
    let n_starts = words::read(input, &mut starts);
    let n_cols = words::read(input, &mut cols);
    let n_coeffs = words::read(input, &mut coeffs);
    let n_ops = words::read(input, &mut ops);
    let n_rhs = words::read(input, &mut rhs);
    solved(
        out,
        columns,
        rows,
        entries,
        budget,
        tolerance,
        &costs[..n_costs],
        &lowers[..n_lowers],
        &uppers[..n_uppers],
        &starts[..n_starts],
        &cols[..n_cols],
        &coeffs[..n_coeffs],
        &ops[..n_ops],
        &rhs[..n_rhs],
    )
}

fn main(rt: HostRuntime) -> io::Result<()> {
    let mut input = rt.reader();
    let mut out = io::writer(&rt);
    let count = words::next(&mut input);
    for _ in 0..count {
        plan(&mut input, &mut out)?;
    }
    Ok(())
}
