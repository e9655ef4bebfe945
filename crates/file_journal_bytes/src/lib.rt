// A journal's entries in a block's bytes, and the tests of a block.
#![tactic(auto)]

ghost use Rattle.std.specs.Prelude.{◌≡◌, ◌+◌, ◌*◌, ◌≤◌, ◌<◌, length, take, drop};
ghost use Rattle.std.proofs.lemmas.List.Edits.{sets};
ghost use Rattle.file_rules.specs.Bytes.{value};
ghost use Rattle.file_rules.specs.Block.{size_of_block};
ghost use Rattle.file_journal_rules.specs.File.{journal_kind, entry_size, entry_bytes, entry_from, entries_from};
ghost use Rattle.file_journal_rules.specs.File.{clean, all_clean, slot_kind, slot_used, journal_refusal};

use file_block::{checks, stands};
use file_bytes::{get_little, is_blank, number_of, put_little, word_of};
use file_journal_rules::Entry;
use sheet_terms::is_zero;

// A byte as a number.
pub fn size_of(x: u8) -> usize
    ensures { (result ≡ x) × (result ≤ 255) }
{
    x as usize
}

// The place that stands in a block.
pub fn place_of(b: &[u8]) -> usize
    requires { 3 ≤ length b.now }
    ensures { (result ≡ value (take 2 (drop 1 b.now))) × (result ≤ 65535) }
{
    size_of(b[1]) + 256 * size_of(b[2])
}

// The entry from a byte on.
pub fn entry_from(b: &[u8], at: usize) -> Entry
    requires { at + entry_size ≤ length b.now }
    ensures { result ≡ entry_from (drop at b.now) }
{
    let kind = size_of(b[at]);
    let row = get_little(b, at + 1, 2) as usize;
    let column = get_little(b, at + 3, 2) as usize;
    let old = number_of(get_little(b, at + 5, 8));
    let new = number_of(get_little(b, at + 13, 8));
    let before = size_of(b[at + 21]);
    Entry {
        kind: kind,
        row: row,
        column: column,
        old: old,
        new: new,
        before: before,
    }
}

// The entry's bytes from `at` on.
pub fn put_entry(out: &mut [u8], at: usize, n: Entry)
    requires { (at + entry_size ≤ length out.old) × (n.kind < 256) × (n.before < 256) }
    ensures { out.new ≡ sets out.old at (entry_bytes n) }
{
    let last = at + 21;
    out[at] = n.kind as u8;
    put_little(out, at + 1, 2, n.row as u64);
    put_little(out, at + 3, 2, n.column as u64);
    put_little(out, at + 5, 8, word_of(n.old));
    put_little(out, at + 13, 8, word_of(n.new));
    out[last] = n.before as u8;
}

// Whether what the entry's kind doesn't use is 0.
pub fn is_clean(n: Entry) -> bool
    ensures { result ≡ clean n }
{
    let uses_row = (n.kind == 5) | (n.kind == 6) | (n.kind == 7);
    let uses_column = !((n.kind == 5) | (n.kind == 7));
    (uses_row | (n.row == 0)) & (uses_column | (n.column == 0)) & ((n.kind <= 7) | is_zero(n.new))
}

// The same of so many entries of a block.
pub fn all_clean(b: &[u8], count: usize) -> bool
    requires { (length b.now ≡ size_of_block) × (count ≤ 22) }
    ensures { result ≡ all_clean (entries_from count (drop 4 b.now)) }
{
    for k in 0..count {
        if !is_clean(entry_from(b, 4 + 22 * k)) {
            return false;
        }
    }
    true
}

pub fn is_journal_kind(k: u8) -> bool
    ensures { result ≡ journal_kind k }
{
    (k == 11) | (k == 255)
}

// The kind of the block that belongs here, and how many of its bytes are used.
fn slot_kind(end: bool) -> u8
    ensures { result ≡ slot_kind end }
{
    if end {
        return 255;
    }
    11
}

fn slot_used(end: bool, count: u8) -> usize
    ensures { (result ≡ slot_used end count) × (result ≤ 485) }
{
    if end {
        return 0;
    }
    if count <= 22 {
        return 1 + 22 * size_of(count);
    }
    0
}

// What is said of a whole block at its place: 0, or 31 to 34. `only`: the end alone may stand here.
pub fn check_journal_block(b: &[u8], only: bool, place: usize) -> usize
    requires { length b.now ≡ size_of_block }
    ensures { result ≡ journal_refusal only place b.now }
{
    if !is_journal_kind(b[0]) {
        return 31;
    }
    if !checks(b) {
        return 32;
    }
    let end = (b[0] == 255) | only | (b[3] == 0);
    let used = slot_used(end, b[3]);
    if !stands(b, slot_kind(end), place, used) {
        return 33;
    }
    if !is_blank(b, used + 3, 508) {
        return 34;
    }
    if !all_clean(b, size_of(b[3])) {
        return 34;
    }
    0
}
