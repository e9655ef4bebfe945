// The blocks of a plan's file, looked at one after another.
#![tactic(auto)]

ghost use Rattle.std.specs.Prelude.{◌≡◌, ◌+◌, ◌*◌, ◌/◌, ◌≤◌, length, take, drop};
ghost use Rattle.doubles.specs.Limits.{max_rows, max_columns};
ghost use Rattle.doubles.specs.Loop.{each};
ghost use Rattle.file_rules.specs.Block.{size_of_block, room, slot, block_refusal, stray_refusal, walk};
ghost use Rattle.file_rules.specs.PlanFile.{plan_kind, array, shape};
ghost use Rattle.file_walk.specs.Stop.{turn, behind, stop_at, stood_at};

use file_block::{check_block, check_stray};
use file_bytes::least;

// Where reading stands: at a block that is refused with a number, or, with 0, at the place that comes next.
#[derive(Clone, Copy)]
pub struct Stop {
    pub number: usize,
    pub place: usize,
}

// What is said of the bytes at a place of the file, where a block of this kind belongs, and where none does.
fn block_at(file: &[u8], kind: u8, place: usize, used: usize) -> usize
    requires { (place ≤ 65536) × (used ≤ room) }
    ensures { result ≡ block_refusal plan_kind (slot kind used) place
        (take size_of_block (drop (size_of_block * place) file.now)) }
{
    let start = 512 * place;
    let end = start + 512;
    if file.len() < end {
        return 33;
    }
    check_block(&file[start..end], kind, place, used)
}

fn stray_at(file: &[u8], place: usize) -> usize
    requires { place ≤ 65536 }
    ensures { result ≡ stray_refusal plan_kind (take size_of_block (drop (size_of_block * place) file.now)) }
{
    let start = 512 * place;
    let end = start + 512;
    if file.len() < end {
        return 33;
    }
    check_stray(&file[start..end])
}

// The block that comes next.
fn pass_block(file: &[u8], s: Stop, kind: u8, used: usize) -> Stop
    requires { (s.place ≤ 65536) × (used ≤ room) }
    ensures { result ≡ turn file.now (slot kind used) s }
{
    if s.number != 0 {
        return s;
    }
    let number = block_at(file, kind, s.place, used);
    if number != 0 {
        return Stop {
            number: number,
            place: s.place,
        };
    }
    Stop {
        number: 0,
        place: s.place + 1,
    }
}

// The blocks of an array of so many bytes.
fn pass_array(file: &[u8], s: Stop, kind: u8, bytes: usize) -> Stop
    requires { s.place + (bytes + 503) / 504 ≤ 65536 }
    ensures { result ≡ each (array kind bytes) (turn file.now) s }
{
    let mut left = bytes;
    let mut at = s;
    // A while: it moves by as many bytes as a block holds.
    while 0 < left {
        let count = least(504, left);
        at = pass_block(file, at, kind, count);
        left -= count;
    }
    at
}

// Every block behind the first.
fn pass_blocks(file: &[u8], rows: usize, columns: usize) -> Stop
    requires { (rows ≤ max_rows) × (columns ≤ max_columns) }
    ensures { result ≡ each (shape rows columns) (turn file.now) (stop_at 0 1) }
{
    let start = Stop {
        number: 0,
        place: 1,
    };
    let a = pass_array(file, start, 2, 8 * (rows * columns));
    let b = pass_array(file, a, 3, 8 * columns);
    let c = pass_array(file, b, 4, 8 * columns);
    let d = pass_array(file, c, 5, 8 * columns);
    let e = pass_array(file, d, 6, columns);
    let f = pass_array(file, e, 7, columns);
    let g = pass_array(file, f, 8, 8 * rows);
    let h = pass_array(file, g, 9, rows);
    let i = pass_array(file, h, 10, 8 * columns);
    let j = pass_array(file, i, 10, 8 * rows);
    pass_block(file, j, 255, 0)
}

// Behind the end nothing may stand.
fn pass_end(file: &[u8], s: Stop) -> Stop
    requires { s.place ≤ 65536 }
    ensures { result ≡ behind file.now s }
{
    if s.number != 0 {
        return s;
    }
    if file.len() <= 512 * s.place {
        return s;
    }
    Stop {
        number: stray_at(file, s.place),
        place: s.place,
    }
}

// All of them: the number and the block that is refused, or 0 and the place behind the last.
pub fn walk_blocks(file: &[u8], rows: usize, columns: usize) -> Stop
    requires { (rows ≤ max_rows) × (columns ≤ max_columns) }
    ensures { result ≡ stood_at (1 + length (shape rows columns))
        (walk plan_kind (shape rows columns) 1 (drop size_of_block file.now)) }
{
    let s = pass_blocks(file, rows, columns);
    pass_end(file, s)
}
