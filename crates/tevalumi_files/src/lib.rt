// Plans in a file, for C and Rust (02, Ask 1).
#![tactic(auto)]

ghost use Rattle.sheet_rules.specs.Sheet.{plan_of};
ghost use Rattle.file_face.specs.Numbers.{WritesNumbers, ReadsNumbers};

mod journals;

use file_face::{TevalumiRead, TevalumiWritten};

#[unsafe(no_mangle)]
pub extern "C" fn tevalumi_write_plan(
    rows: usize,
    columns: usize,
    coefs: &[i64],
    costs: &[i64],
    lowers: &[i64],
    uppers: &[i64],
    lower_marks: &[u8],
    upper_marks: &[u8],
    rhs: &[i64],
    ops: &[u8],
    amounts: &[i64],
    mults: &[i64],
    file: &mut [u8],
) -> TevalumiWritten
    ensures { WritesNumbers (plan_of rows columns coefs.now costs.now lowers.now
        uppers.now lower_marks.now upper_marks.now rhs.now
        ops.now amounts.now mults.now) file.old result file.new }
{
    let w = file::write_plan(
        rows,
        columns,
        coefs,
        costs,
        lowers,
        uppers,
        lower_marks,
        upper_marks,
        rhs,
        ops,
        amounts,
        mults,
        file,
    );
    TevalumiWritten::from(w)
}

#[unsafe(no_mangle)]
pub extern "C" fn tevalumi_read_plan(
    file: &[u8],
    coefs: &mut [i64],
    costs: &mut [i64],
    lowers: &mut [i64],
    uppers: &mut [i64],
    lower_marks: &mut [u8],
    upper_marks: &mut [u8],
    rhs: &mut [i64],
    ops: &mut [u8],
    amounts: &mut [i64],
    mults: &mut [i64],
) -> TevalumiRead
    ensures { ReadsNumbers file.now
        (plan_of 0 0 coefs.old costs.old lowers.old uppers.old
        lower_marks.old upper_marks.old rhs.old ops.old
        amounts.old mults.old) result
        (plan_of 0 0 coefs.new costs.new lowers.new uppers.new
        lower_marks.new upper_marks.new rhs.new ops.new
        amounts.new mults.new) }
{
    let a = file::read_plan(
        file,
        coefs,
        costs,
        lowers,
        uppers,
        lower_marks,
        upper_marks,
        rhs,
        ops,
        amounts,
        mults,
    );
    TevalumiRead::from(a)
}
