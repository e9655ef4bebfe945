// Doubles to whole numbers, for C and Rust (02, Ask 3).
ghost use Rattle.std.specs.Prelude.{◌≡◌};
ghost use Rattle.whole_round.specs.Whole.{amount_of, multiplier_of};
ghost use Rattle.whole_propose.specs.Propose.{lent_of};
ghost use Rattle.whole_face.specs.Numbers.{whole_numbers, ProposesNumbers};

use whole_face::{TevalumiProposal, TevalumiWhole};

// One number's case, as an amount.
#[unsafe(no_mangle)]
pub extern "C" fn tevalumi_amount(value: f64) -> TevalumiWhole
    ensures { result ≡ whole_numbers (amount_of value) }
{
    let r = whole_round::amount(value);
    TevalumiWhole::from(r)
}

// One price's case, as the multiplier of a row with the comparison op.
#[unsafe(no_mangle)]
pub extern "C" fn tevalumi_multiplier(op: u8, price: f64) -> TevalumiWhole
    ensures { result ≡ whole_numbers (multiplier_of op price) }
{
    let r = whole_round::multiplier(op, price);
    TevalumiWhole::from(r)
}

#[unsafe(no_mangle)]
pub extern "C" fn tevalumi_propose(
    columns: usize,
    rows: usize,
    starts: &[usize],
    ops: &[u8],
    values: &[f64],
    numbers: &[usize],
    doubles: &[f64],
    amounts: &mut [i64],
    mults: &mut [i64],
) -> TevalumiProposal
    ensures { ProposesNumbers (lent_of columns rows starts.now ops.now values.now
        numbers.now doubles.now amounts.old mults.old) result
        amounts.new mults.new }
{
    let p = whole_propose::propose(
        columns, rows, starts, ops, values, numbers, doubles, amounts, mults,
    );
    TevalumiProposal::from(p)
}
