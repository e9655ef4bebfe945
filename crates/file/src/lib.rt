// Plans in a file: the public calls. They ask nothing: whatever is lent, the answer and every lent cell afterwards are
// settled. 02, Ask 1.
#![tactic(auto)]

ghost use Rattle.sheet_rules.specs.Sheet.{plan_of};
ghost use Rattle.file_rules.specs.Calls.{Writes, Reads};

use file_decide::{judge, write_refusal};
use file_rules::{Reading, Writing};

// Writes a plan: 11, 12 or 13 and nothing changed, or its blocks at the front of `file`, and how many bytes they take.
pub fn write_plan(
    rows: usize,
    columns: usize,
    coefs: &[i64],
    costs: &[i64],
    lowers: &[i64],
    uppers: &[i64],
    lower_marks: &[u8],
    upper_marks: &[u8],
    rhs: &[i64],
    ops: &[u8],
    amounts: &[i64],
    mults: &[i64],
    file: &mut [u8],
) -> Writing
    ensures { Writes (plan_of rows columns coefs.now costs.now lowers.now
        uppers.now lower_marks.now upper_marks.now rhs.now
        ops.now amounts.now mults.now) file.old result file.new }
{
    let refusal = write_refusal(
        rows,
        columns,
        coefs,
        costs,
        lowers,
        uppers,
        lower_marks,
        upper_marks,
        rhs,
        ops,
        amounts,
        mults,
        file,
    );
    if refusal != 0 {
        return Writing::Refused(refusal);
    }
    let blocks = file_plan::write_blocks(
        rows,
        columns,
        coefs,
        costs,
        lowers,
        uppers,
        lower_marks,
        upper_marks,
        rhs,
        ops,
        amounts,
        mults,
        file,
    );
    Writing::Written(512 * blocks)
}

// Reads a plan: a number and the block where reading stood, and nothing changed, or the plan's sizes, and its arrays
// over the front of the lent ones.
pub fn read_plan(
    file: &[u8],
    coefs: &mut [i64],
    costs: &mut [i64],
    lowers: &mut [i64],
    uppers: &mut [i64],
    lower_marks: &mut [u8],
    upper_marks: &mut [u8],
    rhs: &mut [i64],
    ops: &mut [u8],
    amounts: &mut [i64],
    mults: &mut [i64],
) -> Reading
    ensures { Reads file.now (plan_of 0 0 coefs.old costs.old
        lowers.old uppers.old lower_marks.old upper_marks.old
        rhs.old ops.old amounts.old mults.old) result
        (plan_of 0 0 coefs.new costs.new lowers.new uppers.new
        lower_marks.new upper_marks.new rhs.new ops.new
        amounts.new mults.new) }
{
    let answer = judge(
        file,
        coefs,
        costs,
        lowers,
        uppers,
        lower_marks,
        upper_marks,
        rhs,
        ops,
        amounts,
        mults,
    );
    match answer {
        Reading::Held { rows, columns } => {
            file_open::take_plan(
                file,
                rows,
                columns,
                coefs,
                costs,
                lowers,
                uppers,
                lower_marks,
                upper_marks,
                rhs,
                ops,
                amounts,
                mults,
            );
            Reading::Held {
                rows: rows,
                columns: columns,
            }
        },
        Reading::Refused { number, block } => Reading::Refused {
            number: number,
            block: block,
        },
    }
}
