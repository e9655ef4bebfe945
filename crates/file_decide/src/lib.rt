// What a write refuses and what a read answers, by & alone, before anything is stored. 02, Ask 1.
#![tactic(auto)]

ghost use Rattle.std.specs.Prelude.{◌≡◌, ◌≤◌, length, take, drop};
ghost use Rattle.doubles.specs.Limits.{max_rows, max_columns};
ghost use Rattle.sheet_rules.specs.Sheet.{plan_of};
ghost use Rattle.file_rules.specs.Block.{size_of_block, block_refusal, walk};
ghost use Rattle.file_rules.specs.PlanFile.{plan_kind, shape, sizes_slot, plan_sized, opens_as, read_file};
ghost use Rattle.file_rules.specs.Calls.{write_refusal, reading_of};

use file_block::check_block;
use file_bytes::get_little;
use file_open::layout;
use file_rules::Reading;
use file_walk::walk_blocks;

// 11: whether the sizes are within their limits and none of the ten arrays is too short.
fn plan_sized(
    rows: usize,
    columns: usize,
    coefs: &[i64],
    costs: &[i64],
    lowers: &[i64],
    uppers: &[i64],
    lower_marks: &[u8],
    upper_marks: &[u8],
    rhs: &[i64],
    ops: &[u8],
    amounts: &[i64],
    mults: &[i64],
) -> bool
    ensures { result ≡ plan_sized (plan_of rows columns coefs.now costs.now lowers.now
        uppers.now lower_marks.now upper_marks.now rhs.now
        ops.now amounts.now mults.now) }
{
    if (rows <= doubles::MAX_ROWS) & (columns <= doubles::MAX_COLUMNS) {
        let cells = rows * columns;
        return (cells <= coefs.len())
            & (columns <= costs.len())
            & (columns <= lowers.len())
            & (columns <= uppers.len())
            & (columns <= lower_marks.len())
            & (columns <= upper_marks.len())
            & (rows <= rhs.len())
            & (rows <= ops.len())
            & (columns <= amounts.len())
            & (rows <= mults.len());
    }
    false
}

// What a write refuses: 11 to 13, or 0.
pub fn write_refusal(
    rows: usize,
    columns: usize,
    coefs: &[i64],
    costs: &[i64],
    lowers: &[i64],
    uppers: &[i64],
    lower_marks: &[u8],
    upper_marks: &[u8],
    rhs: &[i64],
    ops: &[u8],
    amounts: &[i64],
    mults: &[i64],
    file: &[u8],
) -> usize
    ensures { result ≡ write_refusal (plan_of rows columns coefs.now costs.now
        lowers.now uppers.now lower_marks.now upper_marks.now
        rhs.now ops.now amounts.now mults.now) file.now }
{
    if !plan_sized(
        rows,
        columns,
        coefs,
        costs,
        lowers,
        uppers,
        lower_marks,
        upper_marks,
        rhs,
        ops,
        amounts,
        mults,
    ) {
        return 11;
    }
    if file.len() < 512 * (layout(rows, columns).end + 1) {
        return 11;
    }
    if !sheet_tests::numbers_fine(
        rows,
        columns,
        coefs,
        costs,
        lowers,
        uppers,
        lower_marks,
        upper_marks,
        rhs,
        ops,
        amounts,
        mults,
    ) {
        return 12;
    }
    if !sheet_tests::uncrossed(
        rows,
        columns,
        coefs,
        costs,
        lowers,
        uppers,
        lower_marks,
        upper_marks,
        rhs,
        ops,
        amounts,
        mults,
    ) {
        return 13;
    }
    0
}

// What is said of block 0.
fn first_refusal(file: &[u8]) -> usize
    ensures { result ≡ block_refusal plan_kind sizes_slot 0 (take size_of_block file.now) }
{
    if file.len() < 512 {
        return 33;
    }
    check_block(&file[0..512], 1, 0, 16)
}

// What is said of a file of these sizes, from block 1 on: of its blocks, then of its numbers.
fn judge_blocks(file: &[u8], rows: usize, columns: usize) -> Reading
    requires { (rows ≤ max_rows) × (columns ≤ max_columns) × (size_of_block ≤ length file.now) }
    ensures { result ≡ reading_of (opens_as rows columns
        (walk plan_kind (shape rows columns) 1 (drop size_of_block file.now))) }
{
    let s = walk_blocks(file, rows, columns);
    if s.number != 0 {
        return Reading::Refused {
            number: s.number,
            block: s.place,
        };
    }
    if !file_open::numbers_fine(file, rows, columns) {
        return Reading::Refused {
            number: 12,
            block: s.place - 1,
        };
    }
    if !file_open::uncrossed(file, rows, columns) {
        return Reading::Refused {
            number: 13,
            block: s.place - 1,
        };
    }
    Reading::Held {
        rows: rows,
        columns: columns,
    }
}

// What a read answers. It looks at the bytes and at the arrays' lengths alone.
pub fn judge(
    file: &[u8],
    coefs: &[i64],
    costs: &[i64],
    lowers: &[i64],
    uppers: &[i64],
    lower_marks: &[u8],
    upper_marks: &[u8],
    rhs: &[i64],
    ops: &[u8],
    amounts: &[i64],
    mults: &[i64],
) -> Reading
    ensures { result ≡ reading_of (read_file (plan_of 0 0 coefs.now costs.now lowers.now
        uppers.now lower_marks.now upper_marks.now rhs.now
        ops.now amounts.now mults.now) file.now) }
{
    let first = first_refusal(file);
    if first != 0 {
        return Reading::Refused {
            number: first,
            block: 0,
        };
    }
    let rows = get_little(file, 3, 8) as usize;
    let columns = get_little(file, 11, 8) as usize;
    if !plan_sized(
        rows,
        columns,
        coefs,
        costs,
        lowers,
        uppers,
        lower_marks,
        upper_marks,
        rhs,
        ops,
        amounts,
        mults,
    ) {
        return Reading::Refused {
            number: 11,
            block: 0,
        };
    }
    judge_blocks(file, rows, columns)
}
