// A whole reading of a text into what is lent, a row or a list of records.

#![tactic(auto)]

ghost use Rattle.std.specs.Prelude.{◌≡◌, ◌+◌, length, replicate, true};
ghost use Rattle.lines.specs.Lines.{line_at};
ghost use Rattle.indentation.specs.Levels.{level, most_levels};
ghost use Rattle.indentation.specs.Promises.{stack};
ghost use Rattle.reading.specs.Promises.{Asks, Readable, FinishOk, room_refusal, Finished};
ghost use Rattle.reading.specs.Answers.{go, need, whole_plan, text_refusal, read_answer, read_row, measure_answer};
ghost use Rattle.answers.specs.Answers.{answer, told};
ghost use Rattle.answers.specs.Promises.{Fits};
ghost use Rattle.rounds.specs.Rounds.{state, view};

use answers::{Answer, Refusal};
use indentation::{Level, MOST_LEVELS};
use measuring::Numbers;
use records::Slot;

// The mode Expression, without notes and with them; the modes above the first list notes.
// Kept: modes are numbers: `asked_by` and `read_whole` promise what a mode asks of any number (`Asks`), which an enum of six would narrow.
const EXPRESSION: u32 = 2;

const EXPRESSION_WITH_NOTES: u32 = 5;

// Code 2 starts above it.
const LAST_MODE: u32 = EXPRESSION_WITH_NOTES;

// What a mode asks for: whether comments and newlines that end no logical line are listed, and whether a soft keyword may stand first.
#[derive(Clone, Copy)]
pub struct Asked {
    pub full: bool,
    pub line: bool,
}

// Modes 3 to 5 list them; a soft keyword may not stand first in an expression, modes 2 and 5.
#[tactic(auto, using(choice::proofs::Laws::tests), unfolding(crate::specs::Modes::lists_notes, crate::specs::Modes::starts_line))]
pub fn asked_by(mode: u32) -> Asked
    ensures { Asks mode result }
{
    Asked {
        full: EXPRESSION < mode,
        line: mode != EXPRESSION && mode != EXPRESSION_WITH_NOTES,
    }
}

// Places for a hundred levels, filled with zero.
pub fn no_levels() -> [Level; MOST_LEVELS]
    ensures result_len { length result ≡ most_levels }
    ensures value { result ≡ replicate most_levels (level 0 0) }
{
    [Level { tabs: 0, spaces: 0 }; MOST_LEVELS]
}

// A reading's ending, with the start added to its place.
pub fn ending_answer(start: usize, n: Numbers) -> Answer
    requires { Fits n.count (start + n.place) }
    ensures { result ≡ answer n.code n.count (start + n.place) n.detail }
{
    answers::ended(n.code, n.count, start + n.place, n.detail)
}

// Code 4 where so much room is too little for what is read on from a line's start, behind `first` records.
// No reading has more than two records a byte, a Dedent for each open level, and one: with room for those nothing is measured.
pub fn room_refusal(
    s: &[u8],
    full: bool,
    room: usize,
    levels: [Level; MOST_LEVELS],
    depth: usize,
    from: usize,
    first: usize,
) -> Result<(), Refusal>
    requires { FinishOk s.now 0 levels depth from first }
    ensures { told result ≡ room_refusal room (need first (view full s.now (state from true 0 (stack levels depth)))) }
{
    if first + 2 * (s.len() - from) + depth + 1 <= room {
        return Ok(());
    }
    let need = measuring::measure(s, full, levels, depth, from, first).count;
    if room < need {
        return Err(Refusal::NoRoom { need: need as u32 });
    }
    Ok(())
}

// Reads on from a line's start, with so many lines above it and after `first` records, if there is room.
pub fn finish<T: Slot>(
    s: &[u8],
    full: bool,
    row: &mut [T],
    start: usize,
    levels: [Level; MOST_LEVELS],
    depth: usize,
    from: usize,
    above: usize,
    first: usize,
    line: bool,
) -> Answer
    requires finish_ok { FinishOk s.now start levels depth from first }
    requires above_value { above ≡ line_at s.now from }
    ensures { Finished s.now (T.numbers row.old) (T.numbers row.new) start (go first from full line (stack levels depth)) result }
{
    let room = T::room(row);
    if let Err(r) = room_refusal(s, full, room, levels, depth, from, first) {
        return r.into();
    }
    let t = filling::fill(s, full, row, start, levels, depth, from, above, first, line);
    ending_answer(start, t.into())
}

// A text that codes 1 to 3 leave, read from its start, after a BOM.
pub fn read_whole<T: Slot>(s: &[u8], row: &mut [T], mode: u32, start: usize) -> Answer
    requires { Readable s.now start }
    ensures { Finished s.now (T.numbers row.old) (T.numbers row.new) start (whole_plan s.now mode) result }
{
    let m = asked_by(mode);
    let from = window::text_start(s);
    finish(s, m.full, row, start, no_levels(), 0, from, 0, 0, m.line)
}

// Codes 1, 2 and 3, in this order.
#[tactic(auto, using(choice::proofs::Laws::tests), unfolding(crate::specs::Answers::text_refusal, crate::specs::Answers::bytes_refusal))]
pub fn text_refusal(s: &[u8], mode: u32, start: u32) -> Result<(), Refusal>
    ensures { told result ≡ text_refusal s.now mode start }
{
    let base = start as usize;
    if records::MOST_BYTES < s.len() || records::PLACES <= base + s.len() {
        return Err(Refusal::TooLong);
    }
    if LAST_MODE < mode {
        return Err(Refusal::UnknownMode);
    }
    match utf8::check(s) {
        Ok(()) => Ok(()),
        Err(bad) => Err(Refusal::IllFormed {
            place: (base + bad.at) as u32,
            fault: bad.fault,
        }),
    }
}

// Reads a text in a mode into what is lent; the start is added to every place.
pub fn read_into<T: Slot>(s: &[u8], mode: u32, start: u32, row: &mut [T]) -> Answer
    ensures answer { result ≡ read_answer s.now mode start (T.numbers row.old) }
    ensures records { T.numbers row.new ≡ read_row s.now mode start (T.numbers row.old) }
{
    if let Err(r) = text_refusal(s, mode, start) {
        return r.into();
    }
    read_whole(s, row, mode, start as usize)
}

// The first door: into a row. The theorems on edits and comments speak of this contract.
pub fn read(s: &[u8], mode: u32, start: u32, row: &mut [u32]) -> Answer
    ensures answer { result ≡ read_answer s.now mode start row.old }
    ensures records { row.new ≡ read_row s.now mode start row.old }
{
    read_into(s, mode, start, row)
}

// What `read` answers where the row has room enough: never code 4.
pub fn measure(s: &[u8], mode: u32, start: u32) -> Answer
    ensures { result ≡ measure_answer s.now mode start }
{
    if let Err(r) = text_refusal(s, mode, start) {
        return r.into();
    }
    let full = asked_by(mode).full;
    let t = measuring::measure(s, full, no_levels(), 0, window::text_start(s), 0);
    ending_answer(start as usize, t.into())
}
