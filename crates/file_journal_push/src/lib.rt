// A lent journal, written: begun, an entry put behind its last one, the last one taken off.
#![tactic(auto)]

ghost use Rattle.std.specs.Prelude.{◌≡◌, ◌∷◌, ◌++◌, suc, ◌+◌, ◌*◌, ◌<◌, ◌≤◌, length};
ghost use Rattle.file_rules.specs.Block.{size_of_block, block};
ghost use Rattle.file_journal_rules.specs.File.{entry_bytes};
ghost use Rattle.file_journal_rules.specs.Lent.{whole_blocks, room_of, block_of, front, shorter, pushed, popped};
ghost use Rattle.file_journal_rules.specs.Promises.{Begins};

use file_block::write_block;
use file_journal_bytes::put_entry;
use file_journal_rules::Entry;

// An empty journal.
pub fn begin(journal: &mut [u8]) -> usize
    ensures { Begins journal.old result journal.new }
{
    if journal.len() < 512 {
        return 33;
    }
    write_block(&mut journal[0..512], 255, 0, 0);
    0
}

// One entry more in a block that has c.
fn add_entry(b: &mut [u8], place: usize, c: usize, e: Entry)
    requires { (length b.old ≡ size_of_block) × (c < 22) × (e.kind < 256) × (e.before < 256) }
    ensures { b.new ≡ block 11 place (suc c ∷ (front c b.old ++ entry_bytes e)) }
{
    put_entry(b, 4 + 22 * c, e);
    b[3] = (c + 1) as u8;
    write_block(b, 11, place, 23 + 22 * c);
}

// Behind n entries one more.
pub fn push(journal: &mut [u8], n: usize, e: Entry)
    requires { (n < room_of journal.old) × (e.kind < 256) × (e.before < 256) }
    ensures { journal.new ≡ pushed n e journal.old }
{
    let k = n / 22;
    let c = n % 22;
    let start = 512 * k;
    let end = start + 512;
    add_entry(&mut journal[start..end], k, c, e);
    if c == 0 {
        let next = end + 512;
        write_block(&mut journal[end..next], 255, k + 1, 0);
    }
}

// A block of which c entries are left.
fn cut_block(b: &mut [u8], place: usize, c: usize)
    requires { (length b.old ≡ size_of_block) × (c < 22) }
    ensures { b.new ≡ shorter c place b.old }
{
    if c == 0 {
        write_block(b, 255, place, 0);
        return;
    }
    b[3] = c as u8;
    write_block(b, 11, place, 1 + 22 * c);
}

// Entry number m, the last, taken off.
pub fn pop(journal: &mut [u8], m: usize)
    requires { size_of_block * block_of m + size_of_block ≤ length journal.old }
    ensures { journal.new ≡ popped m journal.old }
{
    let k = m / 22;
    let start = 512 * k;
    let end = start + 512;
    cut_block(&mut journal[start..end], k, m % 22);
}
