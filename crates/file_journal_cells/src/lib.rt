// The cells of a feed between its pieces, and what a whole block does to them. A feed's close.
#![tactic(auto)]

ghost use Rattle.std.specs.Prelude.{◌≡◌, suc, ◌+◌, ◌≤◌, ◌<◌, leb, eqb, length, take, drop, set};
ghost use Rattle.doubles.specs.Lists.{◌#◌};
ghost use Rattle.file_rules.specs.Bytes.{value};
ghost use Rattle.file_rules.specs.Block.{size_of_block, stray_refusal};
ghost use Rattle.file_journal_rules.specs.File.{journal_kind};
ghost use Rattle.file_journal_rules.specs.Feed.{says_by, cells_fine, feed_fine};
ghost use Rattle.file_journal_rules.specs.Promises.{Closes};
ghost use Rattle.file_journal_cells.specs.Cells.{takes, settled};

use file_block::checks;
use file_journal_bytes::{check_journal_block, is_journal_kind, place_of, size_of};

// Whether four cells are there that a feed leaves.
pub fn cells_fine(feed: &[usize]) -> bool
    ensures { result ≡ cells_fine feed.now }
{
    if feed.len() < 4 {
        return false;
    }
    (feed[1] < 512) & (feed[3] <= 2)
}

// Whether the lent memory is a feed's.
pub fn feed_fine(waiting: &[u8], feed: &[usize]) -> bool
    ensures { result ≡ feed_fine waiting.now feed.now }
{
    if waiting.len() < 512 {
        return false;
    }
    cells_fine(feed)
}

// The feed is closed: 0 where the end has come and nothing waits.
pub fn close(feed: &[usize]) -> usize
    ensures { Closes feed.now result }
{
    if !cells_fine(feed) {
        return 11;
    }
    if feed[2] != 0 {
        return feed[2];
    }
    if feed[1] != 0 {
        return 33;
    }
    if feed[3] < 2 {
        return 33;
    }
    0
}

// What is said of a whole block behind the end.
fn stray_says(b: &[u8]) -> usize
    requires { length b.now ≡ size_of_block }
    ensures { result ≡ stray_refusal journal_kind b.now }
{
    if !is_journal_kind(b[0]) {
        return 31;
    }
    if !checks(b) {
        return 32;
    }
    33
}

// What is said of a whole block by the feed's phase.
pub fn block_says(b: &[u8], phase: usize, place: usize) -> usize
    requires { length b.now ≡ size_of_block }
    ensures { result ≡ says_by (leb 2 phase) phase place b.now }
{
    if 2 <= phase {
        return stray_says(b);
    }
    check_journal_block(b, phase == 1, place)
}

// How many entries are taken from a block of which this was said.
pub fn entries_taken(b: &[u8], says: usize) -> usize
    requires { length b.now ≡ size_of_block }
    ensures { result ≡ takes says (eqb (b.now # 0) 255) (b.now # 3) }
{
    if says != 0 {
        return 0;
    }
    if b[0] == 255 {
        return 0;
    }
    size_of(b[3])
}

// The cells behind a block: r is the refusal of an entry, or 0.
pub fn settle(b: &[u8], says: usize, r: usize, feed: &mut [usize])
    requires { (length b.now ≡ size_of_block) × (4 ≤ length feed.old) × (feed.old # 2 ≡ 0)
        × (says ≡ 0 → value (take 2 (drop 1 b.now)) ≡ feed.old # 0) }
    ensures { feed.new
        ≡ settled says (eqb (b.now # 0) 255) (b.now # 3) r feed.old }
{
    feed[1] = 0;
    if says != 0 {
        feed[2] = says;
        return;
    }
    feed[0] = place_of(b) + 1;
    if b[0] == 255 {
        feed[3] = 2;
        return;
    }
    feed[2] = r;
    if b[3] < 22 {
        feed[3] = 1;
        return;
    }
    feed[3] = 0;
}

// One byte behind those that wait.
pub fn put_byte(x: u8, waiting: &mut [u8], feed: &mut [usize]) -> bool
    requires { (size_of_block ≤ length waiting.old) × (4 ≤ length feed.old) × (feed.old # 1 < size_of_block) }
    ensures { (result ≡ leb size_of_block (suc (feed.old # 1)))
        × (waiting.new ≡ set waiting.old (feed.old # 1) x)
        × (feed.new ≡ set feed.old 1 (feed.old # 1 + 1)) }
{
    let at = feed[1];
    waiting[at] = x;
    feed[1] = at + 1;
    512 <= at + 1
}
