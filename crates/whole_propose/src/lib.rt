// A proposal for the sheet from a plan and the memory of a run (02, Ask 3). It asks nothing: any bytes bring an answer.
#![tactic(auto)]

ghost use Rattle.std.specs.Prelude.{◌≡◌, [], ◌≤◌, length};
ghost use Rattle.doubles.specs.Lists.{over};
ghost use Rattle.state.specs.Memory.{memory_in};
ghost use Rattle.whole_multipliers.specs.Rows.{rows_of, Long};
ghost use Rattle.whole_propose.specs.Propose.{lent_of, lent_fine, first_amount, amounts_of, first_not_whole, proposal, is_proposed, handed, proposed};

// Proposed: every number was whole, and all are written. Nothing: the run's status isn't 0. Refused: 1 for sizes and
// lengths, 41 for rows or maps that aren't a run's. Else the first number that isn't whole, with its case.
#[derive(Clone, Copy)]
pub enum Proposal {
    Proposed,
    Nothing,
    Refused(usize),
    AmountNotWhole {
        column: usize,
        answer: whole_round::Rounded,
    },
    MultiplierNotWhole {
        row: usize,
        answer: whole_round::Rounded,
    },
}

// 1: every size within its limit, and no lent array too short.
fn lent_fine(
    columns: usize,
    rows: usize,
    starts: &[usize],
    ops: &[u8],
    values: &[f64],
    numbers: &[usize],
    doubles: &[f64],
    amounts: &[i64],
    mults: &[i64],
) -> bool
    ensures { result ≡ lent_fine (lent_of columns rows starts.now ops.now values.now
        numbers.now doubles.now amounts.now mults.now) }
{
    (columns <= doubles::MAX_COLUMNS)
        & (rows <= doubles::MAX_ROWS)
        & (rows < starts.len())
        & (rows <= ops.len())
        & (columns <= values.len())
        & (state::NUMBERS <= numbers.len())
        & (state::DOUBLES <= doubles.len())
        & (columns <= amounts.len())
        & (rows <= mults.len())
}

// The first column whose amount isn't whole, and `columns` where each is.
fn first_amount(columns: usize, values: &[f64]) -> usize
    requires { columns ≤ length values.now }
    ensures { result ≡ first_amount columns values.now }
{
    for (j, &value) in values[..columns].iter().enumerate() {
        if !whole_round::is_whole(whole_round::amount(value)) {
            return j;
        }
    }
    columns
}

fn write_amounts(columns: usize, values: &[f64], amounts: &mut [i64])
    requires { (columns ≤ length values.now) × (columns ≤ length amounts.old) }
    ensures { amounts.new ≡ over (amounts_of columns values.now) amounts.old }
{
    for j in 0..columns {
        amounts[j] = whole_round::number_of(whole_round::amount(values[j]));
    }
}

// The first number that isn't whole: amounts, then multipliers.
fn first_not_whole(
    columns: usize,
    rows: usize,
    starts: &[usize],
    ops: &[u8],
    values: &[f64],
    numbers: &[usize],
    doubles: &[f64],
) -> Proposal
    requires { Long columns rows starts.now ops.now numbers.now doubles.now × (columns ≤ length values.now) }
    ensures { result ≡ first_not_whole (rows_of columns rows starts.now ops.now)
        (memory_in values.now numbers.now doubles.now [] []) }
{
    let j = first_amount(columns, values);
    if j < columns {
        return Proposal::AmountNotWhole {
            column: j,
            answer: whole_round::amount(values[j]),
        };
    }
    let i = whole_multipliers::first_multiplier(columns, rows, starts, ops, numbers, doubles);
    if i < rows {
        return Proposal::MultiplierNotWhole {
            row: i,
            answer: whole_multipliers::row_multiplier(
                columns, rows, starts, ops, numbers, doubles, i,
            ),
        };
    }
    Proposal::Proposed
}

// Every test, and no cell written.
fn answer(
    columns: usize,
    rows: usize,
    starts: &[usize],
    ops: &[u8],
    values: &[f64],
    numbers: &[usize],
    doubles: &[f64],
    amounts: &[i64],
    mults: &[i64],
) -> Proposal
    ensures { result ≡ proposal (lent_of columns rows starts.now ops.now values.now
        numbers.now doubles.now amounts.now mults.now) }
{
    if !lent_fine(
        columns, rows, starts, ops, values, numbers, doubles, amounts, mults,
    ) {
        return Proposal::Refused(1);
    }
    if numbers[state::COUNTS + 4] != 0 {
        return Proposal::Nothing;
    }
    if !state_maps::maps_fine(columns, rows, starts, numbers) {
        return Proposal::Refused(41);
    }
    first_not_whole(columns, rows, starts, ops, values, numbers, doubles)
}

fn is_proposed(p: Proposal) -> bool
    ensures { result ≡ is_proposed p }
{
    match p {
        Proposal::Proposed => true,
        Proposal::Nothing => false,
        Proposal::Refused(_) => false,
        Proposal::AmountNotWhole {
            column: _,
            answer: _,
        } => false,
        Proposal::MultiplierNotWhole { row: _, answer: _ } => false,
    }
}

// The whole call. Nothing is written unless every number is whole.
pub fn propose(
    columns: usize,
    rows: usize,
    starts: &[usize],
    ops: &[u8],
    values: &[f64],
    numbers: &[usize],
    doubles: &[f64],
    amounts: &mut [i64],
    mults: &mut [i64],
) -> Proposal
    ensures { handed result amounts.new mults.new ≡ proposed
        (lent_of columns rows starts.now ops.now values.now numbers.now
        doubles.now amounts.old mults.old) }
{
    let a = answer(
        columns, rows, starts, ops, values, numbers, doubles, amounts, mults,
    );
    if is_proposed(a) {
        write_amounts(columns, values, amounts);
        whole_multipliers::write_multipliers(columns, rows, starts, ops, numbers, doubles, mults);
    }
    a
}
