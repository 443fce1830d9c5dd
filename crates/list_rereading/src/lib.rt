// Re-reading after an edit, of a lent list of records: what the first door does with the list's row.

#![tactic(auto)]

ghost use Rattle.list_rereading.specs.Door.{RereadsInto};

use answers::Answer;
use token::Record;

// Reads a text again, after an edit that left its first a bytes as they were when the list's first `old` records were read.
pub fn reread(s: &[u8], mode: u32, list: &mut [Record], old: usize, a: usize) -> Answer
    ensures { RereadsInto s.now mode list.old old a result list.new }
{
    rereading::reread_into(s, mode, list, old, a)
}
