// The plan in a file whose blocks were all accepted: what opening asks of its numbers, and its arrays.
#![tactic(auto)]

ghost use Rattle.std.specs.Prelude.{◌≡◌, ◌+◌, ◌/◌, ◌≤◌, length};
ghost use Rattle.doubles.specs.Limits.{max_rows, max_columns};
ghost use Rattle.sheet_rules.specs.Sheet.{plan_of};
ghost use Rattle.sheet_rules.specs.Opening.{arrays_fine, numbers_fine, uncrossed};
ghost use Rattle.sheet_tests.specs.Sized.{PlanSized};
ghost use Rattle.file_rules.specs.PlanFile.{ceil};
ghost use Rattle.file_rules.specs.Calls.{over_plan};
ghost use Rattle.file_open.specs.Places.{places_of, plan_at, Whole};

use file_read::{all_within, bounds_fine, ops_fine, take_bytes, take_numbers};

// Where the blocks of each array begin, the coefficients' aside, which begin at 1, and where the end stands.
#[derive(Clone, Copy)]
pub struct Places {
    pub costs: usize,
    pub lowers: usize,
    pub uppers: usize,
    pub lower_marks: usize,
    pub upper_marks: usize,
    pub rhs: usize,
    pub ops: usize,
    pub amounts: usize,
    pub mults: usize,
    pub end: usize,
}

// The blocks of so many bytes.
fn ceil(bytes: usize) -> usize
    requires { bytes ≤ 100000 }
    ensures { result ≡ ceil bytes }
{
    (bytes + 503) / 504
}

pub fn layout(rows: usize, columns: usize) -> Places
    requires { (rows ≤ max_rows) × (columns ≤ max_columns) }
    ensures { result ≡ places_of rows columns }
{
    let numbers = ceil(8 * columns);
    let marks = ceil(columns);
    let sides = ceil(8 * rows);
    let costs = 1 + ceil(8 * (rows * columns));
    let lower_marks = costs + numbers + numbers + numbers;
    let rhs = lower_marks + marks + marks;
    let amounts = rhs + sides + ceil(rows);
    Places {
        costs: costs,
        lowers: costs + numbers,
        uppers: costs + numbers + numbers,
        lower_marks: lower_marks,
        upper_marks: lower_marks + marks,
        rhs: rhs,
        ops: rhs + sides,
        amounts: amounts,
        mults: amounts + numbers,
        end: amounts + numbers + sides,
    }
}

// 12, as at opening: every array but the coefficients, and all.
fn arrays_fine(file: &[u8], rows: usize, columns: usize) -> bool
    requires { Whole rows columns file.now }
    ensures { result ≡ arrays_fine (plan_at file.now rows columns) }
{
    let p = layout(rows, columns);
    all_within(file, doubles::MAX_COST, p.costs, columns)
        & bounds_fine(file, p.lower_marks, p.lowers, columns)
        & bounds_fine(file, p.upper_marks, p.uppers, columns)
        & all_within(file, doubles::MAX_RIGHT_SIDE, p.rhs, rows)
        & ops_fine(file, p.ops, rows)
        & all_within(file, doubles::MAX_AMOUNT, p.amounts, columns)
        & all_within(file, doubles::MAX_MULTIPLIER, p.mults, rows)
}

pub fn numbers_fine(file: &[u8], rows: usize, columns: usize) -> bool
    requires { Whole rows columns file.now }
    ensures { result ≡ numbers_fine (plan_at file.now rows columns) }
{
    all_within(file, doubles::MAX_COEFFICIENT, 1, rows * columns) & arrays_fine(file, rows, columns)
}

// 13, as at opening.
pub fn uncrossed(file: &[u8], rows: usize, columns: usize) -> bool
    requires { Whole rows columns file.now }
    ensures { result ≡ uncrossed (plan_at file.now rows columns) }
{
    let p = layout(rows, columns);
    file_read::uncrossed(
        file,
        p.lowers,
        p.uppers,
        p.lower_marks,
        p.upper_marks,
        columns,
    )
}

// The ten arrays, over the front of the lent ones.
pub fn take_plan(
    file: &[u8],
    rows: usize,
    columns: usize,
    coefs: &mut [i64],
    costs: &mut [i64],
    lowers: &mut [i64],
    uppers: &mut [i64],
    lower_marks: &mut [u8],
    upper_marks: &mut [u8],
    rhs: &mut [i64],
    ops: &mut [u8],
    amounts: &mut [i64],
    mults: &mut [i64],
)
    requires { Whole rows columns file.now × PlanSized
        (plan_of rows columns coefs.old costs.old lowers.old uppers.old lower_marks.old upper_marks.old
        rhs.old ops.old amounts.old mults.old) }
    ensures { plan_of 0 0 coefs.new costs.new lowers.new uppers.new
        lower_marks.new upper_marks.new rhs.new ops.new
        amounts.new mults.new ≡ over_plan (plan_at file.now rows columns)
        (plan_of 0 0 coefs.old costs.old lowers.old uppers.old
        lower_marks.old upper_marks.old rhs.old ops.old
        amounts.old mults.old) }
{
    let p = layout(rows, columns);
    take_numbers(file, 1, rows * columns, coefs);
    take_numbers(file, p.costs, columns, costs);
    take_numbers(file, p.lowers, columns, lowers);
    take_numbers(file, p.uppers, columns, uppers);
    take_bytes(file, p.lower_marks, columns, lower_marks);
    take_bytes(file, p.upper_marks, columns, upper_marks);
    take_numbers(file, p.rhs, rows, rhs);
    take_bytes(file, p.ops, rows, ops);
    take_numbers(file, p.amounts, columns, amounts);
    take_numbers(file, p.mults, rows, mults);
}
