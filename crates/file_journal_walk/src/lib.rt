// A lent journal, read: its test, its room, and an entry of it.
#![tactic(auto)]

ghost use Rattle.std.specs.Prelude.{◌≡◌, ◌+◌, ◌*◌, ◌≤◌, length};
ghost use Rattle.file_rules.specs.Block.{size_of_block};
ghost use Rattle.file_journal_rules.specs.Lent.{tested, whole_blocks, room_of, block_of, entry_at};

use file_journal_bytes::{check_journal_block, entry_from, size_of};
use file_journal_rules::{Entry, Tested};

// The whole blocks that are used: a place has two bytes.
pub fn whole_blocks(journal: &[u8]) -> usize
    ensures { result ≡ whole_blocks journal.now }
{
    let n = journal.len() / 512;
    if 65536 < n {
        return 65536;
    }
    n
}

// The journal's blocks in turn, up to the end.
pub fn test(journal: &[u8]) -> Tested
    ensures { result ≡ tested journal.now }
{
    let blocks = whole_blocks(journal);
    let mut n: usize = 0;
    for place in 0..blocks {
        let start = 512 * place;
        let end = start + 512;
        let only = n < 22 * place;
        let refusal = check_journal_block(&journal[start..end], only, place);
        if refusal != 0 {
            return Tested {
                refusal: refusal,
                entries: 0,
            };
        }
        if journal[start] == 255 {
            return Tested {
                refusal: 0,
                entries: n,
            };
        }
        n += size_of(journal[start + 3]);
    }
    Tested {
        refusal: 33,
        entries: 0,
    }
}

// How many entries the lent blocks take, one of them left for the end.
pub fn room_of(journal: &[u8]) -> usize
    ensures { result ≡ room_of journal.now }
{
    let blocks = whole_blocks(journal);
    if blocks == 0 {
        return 0;
    }
    22 * (blocks - 1)
}

// Entry number i.
pub fn entry_at(journal: &[u8], i: usize) -> Entry
    requires { size_of_block * block_of i + size_of_block ≤ length journal.now }
    ensures { result ≡ entry_at i journal.now }
{
    let start = 512 * (i / 22);
    let end = start + 512;
    let at = 4 + 22 * (i % 22);
    entry_from(&journal[start..end], at)
}
