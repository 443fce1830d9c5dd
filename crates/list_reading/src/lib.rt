// The second door: a whole reading of a text into a lent list of records.

#![tactic(auto)]

ghost use Rattle.list_reading.specs.Door.{ReadsInto};

use answers::Answer;
use token::Record;

// Reads a text in a mode into a list; the start is added to every place. What it does is what `reading::read` does with the list's row.
pub fn read(s: &[u8], mode: u32, start: u32, list: &mut [Record]) -> Answer
    ensures { ReadsInto s.now mode start list.old result list.new }
{
    reading::read_into(s, mode, start, list)
}
