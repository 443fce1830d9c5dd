// Re-reading after an edit: the records up to the cut stay as they are, and the reading goes on behind it.

#![tactic(auto)]

ghost use Rattle.std.specs.Prelude.{◌≡◌, ◌+◌, ◌-◌, ◌<◌, ◌≤◌, length, IfSome};
ghost use Rattle.records.specs.Records.{room};
ghost use Rattle.answers.specs.Answers.{told};
ghost use Rattle.reading.specs.Promises.{Finished};
ghost use Rattle.rereading.specs.Rereads.{is_cut, run_length, indent_in, effect_of, ends_line, edit_refusal, reread_plan, reread_answer, reread_row};
ghost use Rattle.rereading.specs.Promises.{outcome, CutOf, KeptOk, Rebuilt, above_cut, AboveOk};

use answers::{Answer, Refusal};
use indentation::{Level, MOST_LEVELS};
use records::Slot;
use token::Record;

// What a sound kept record does to the levels.
#[derive(Clone, Copy)]
pub enum Effect {
    Opens(Level),
    Closes,
    Stays,
}

// The levels that are open behind kept records, and how many they are.
#[derive(Clone, Copy)]
pub struct Open {
    pub levels: [Level; MOST_LEVELS],
    pub depth: usize,
}

// Whether a record is a Newline that ends below a.
#[tactic(auto, using(choice::proofs::Laws::tests), unfolding(crate::specs::Rereads::is_cut))]
fn is_cut(r: Record, a: usize) -> bool
    ensures { result ≡ is_cut a r }
{
    r.kind == token::NEWLINE && (r.end as usize) < a
}

// The cut of the first records of what is lent: the index of the last of them that is one.
fn cut_in<T: Slot>(row: &[T], old: usize, a: usize) -> Option<usize>
    requires { old ≤ room (T.numbers row.now) }
    ensures { CutOf (T.numbers row.now) a old result }
{
    for i in (0..old).rev() {
        if is_cut(records::record_at(row, i), a) {
            return Some(i);
        }
    }
    None
}

// The end of the run of a byte from i on, below `to`.
fn run_end(s: &[u8], i: usize, to: usize, b: u8) -> usize
    requires low { i ≤ to }
    requires high { to ≤ length s.now }
    ensures value { result ≡ i + run_length s.now b i (to - i) }
    ensures within { result ≤ to }
{
    for j in i..to {
        if s[j] != b {
            return j;
        }
    }
    to
}

// A kept Indent: tabs, then spaces.
fn indent_in(s: &[u8], depth: usize, from: usize, to: usize) -> Option<Effect>
    requires low { from ≤ to }
    requires high { to ≤ length s.now }
    ensures { result ≡ indent_in s.now depth from to }
{
    let after = run_end(s, from, to, b'\t');
    let last = run_end(s, after, to, b' ');
    if from == to || last != to || indentation::MOST_LEVELS <= depth {
        return None;
    }
    Some(Effect::Opens(Level {
        tabs: after - from,
        spaces: last - after,
    }))
}

// A kept record, the cut's end being e; none if it is unsound. Its places are any numbers: they are tested before bytes are read.
#[tactic(auto, using(choice::proofs::Laws::tests), unfolding(crate::specs::Rereads::effect_of))]
fn effect_of(s: &[u8], e: usize, depth: usize, r: Record) -> Option<Effect>
    requires { e ≤ length s.now }
    ensures { result ≡ effect_of s.now e depth r }
{
    let from = r.start as usize;
    let to = r.end as usize;
    if to < from || e < to {
        return None;
    }
    match r.kind {
        token::INDENT => indent_in(s, depth, from, to),
        token::DEDENT if depth == 0 => None,
        token::DEDENT => Some(Effect::Closes),
        _ => Some(Effect::Stays),
    }
}

// The levels after the first k records; none if one of them is unsound.
fn rebuilt<T: Slot>(s: &[u8], e: usize, row: &[T], k: usize) -> Option<Open>
    requires { KeptOk s.now e (T.numbers row.now) k }
    ensures { Rebuilt s.now e (T.numbers row.now) k result }
{
    let mut levels = reading::no_levels();
    let mut depth = 0;
    for i in 0..k {
        match effect_of(s, e, depth, records::record_at(row, i))? {
            Effect::Opens(level) => {
                levels[depth] = level;
                depth += 1;
            }
            Effect::Closes => depth -= 1,
            Effect::Stays => {}
        }
    }
    Some(Open { levels, depth })
}

// Whether a line ends at e: after an LF, or after a CR with no LF at e.
#[tactic(auto, using(choice::proofs::Laws::tests), unfolding(crate::specs::Rereads::ends_line, lines::specs::Lines::is_line_end))]
fn ends_line(s: &[u8], e: usize) -> bool
    requires { e < length s.now }
    ensures { result ≡ ends_line s.now e }
{
    if e == 0 {
        return false;
    }
    let last = s[e - 1];
    last == b'\n' || last == b'\r' && s[e] != b'\n'
}

// How many lines stand above a cut's end; none unless a line ends there and the cut's own line is right.
#[tactic(auto, using(choice::proofs::Laws::tests), unfolding(crate::specs::Promises::above_cut, crate::specs::Rereads::has_its_line))]
fn above_cut(s: &[u8], cut: Record) -> Option<usize>
    requires { AboveOk s.now cut }
    ensures { result ≡ above_cut s.now cut }
{
    let start = cut.start as usize;
    let line = cut.line as usize;
    let end = cut.end as usize;
    if !ends_line(s, end) || line != lines::line_at(s, start) {
        return None;
    }
    Some(lines::line_from(s, start, line, end))
}

// Code 5.
#[tactic(auto, using(choice::proofs::Laws::tests), unfolding(crate::specs::Rereads::edit_refusal))]
fn edit_refusal(text: usize, list: usize, old: usize, a: usize) -> Result<(), Refusal>
    ensures { told result ≡ edit_refusal text list old a }
{
    if answers::is_above(list, old) || records::MOST_RECORDS < old || text < a {
        return Err(Refusal::WrongEdit);
    }
    Ok(())
}

// The re-reading, where codes 1 to 3, 5 and 6, in this order, do not refuse it. Without a cut the text is read whole; kept records must
// be sound, a line end with them, and the cut's line be right.
fn unless_refused<T: Slot>(
    s: &[u8],
    mode: u32,
    row: &mut [T],
    old: usize,
    a: usize,
) -> Result<Answer, Refusal>
    ensures { Finished s.now (T.numbers row.old) (T.numbers row.new) 0 (reread_plan s.now mode (T.numbers row.old) old a) (outcome result) }
{
    reading::text_refusal(s, mode, 0)?;
    edit_refusal(s.len(), T::room(row), old, a)?;
    let Some(last) = cut_in(row, old, a) else {
        return Ok(reading::read_whole(s, row, mode, 0));
    };
    let cut = records::record_at(row, last);
    let above = above_cut(s, cut).ok_or(Refusal::Unsound)?;
    let end = cut.end as usize;
    let kept = last + 1;
    let open = rebuilt(s, end, row, kept).ok_or(Refusal::Unsound)?;
    let full = reading::asked_by(mode).full;
    Ok(reading::finish(
        s,
        full,
        row,
        0,
        open.levels,
        open.depth,
        end,
        above,
        kept,
        true,
    ))
}

// Reads a text again, after an edit that left its first a bytes as they were when the first `old` records of what is lent were read.
pub fn reread_into<T: Slot>(s: &[u8], mode: u32, row: &mut [T], old: usize, a: usize) -> Answer
    ensures answer { result ≡ reread_answer s.now mode (T.numbers row.old) old a }
    ensures records { T.numbers row.new ≡ reread_row s.now mode (T.numbers row.old) old a }
{
    match unless_refused(s, mode, row, old, a) {
        Ok(answer) => answer,
        Err(refusal) => refusal.into(),
    }
}

// The first door: a row. The theorems on edits speak of this contract.
pub fn reread(s: &[u8], mode: u32, row: &mut [u32], old: usize, a: usize) -> Answer
    ensures answer { result ≡ reread_answer s.now mode row.old old a }
    ensures records { row.new ≡ reread_row s.now mode row.old old a }
{
    reread_into(s, mode, row, old, a)
}
