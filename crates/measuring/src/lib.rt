// The first walk of a reading: its ending, and how many records it has; nothing is written.
// Kept: `filling` walks likewise and writes; one walk for both would look up names and count lines where nobody asks for them.

#![tactic(auto)]

ghost use Rattle.std.specs.Prelude.{◌≡◌, ◌≤◌, length};
ghost use Rattle.measuring.specs.Promises.{numbers, InLine, Rested, LineOk, Lined, TextOk, Measured};
ghost use Rattle.window.specs.Place.{place_at};
ghost use Rattle.indentation.specs.Notes.{notes};
ghost use Rattle.rounds.specs.Rounds.{listed_records};

use indentation::{Level, MOST_LEVELS};
use lexer::{Seen, Step};
use token::Ending;

// How a reading ends, with the text (None) or before it, how many records stand before its end, and where that is.
#[derive(Clone, Copy)]
pub struct Tally {
    pub ending: Option<Ending>,
    pub count: usize,
    pub place: usize,
}

// An ending's numbers, and how many records stand before it.
// Kept: numbers for a code and a detail: `reading::ending_answer` promises what it answers of any.
#[derive(Clone, Copy)]
pub struct Numbers {
    pub code: u32,
    pub count: usize,
    pub place: usize,
    pub detail: u32,
}

// A tally's: 0 and 0 where it ends with the text.
impl From<Tally> for Numbers {
    ghost from_gives = { λ t n. n ≡ numbers t };

    fn from(t: Tally) -> Numbers {
        Numbers {
            code: t.ending.map_or(0, token::code_of),
            count: t.count,
            place: t.place,
            detail: t.ending.map_or(0, token::detail_of),
        }
    }
}

// How a line ends: with its Newline, after which the next line starts; with an error; or with the text. The last number counts the records.
// Kept: the ways on and the error are one enum, since no caller passes the error on as it is: it becomes a tally, or has lines beside it.
#[derive(Clone, Copy)]
pub enum LineEnd {
    Newline(usize, usize),
    Error(Ending, usize, usize),
    End(usize, usize),
}

// The rest of a line, from a place within so many brackets, n records before it. Most steps are told by a glance.
fn measure_rest(s: &[u8], full: bool, at: usize, nest: usize, n: usize) -> LineEnd
    requires { InLine s.now at nest n }
    ensures { Rested full s.now at nest n result }
{
    let mut i = at;
    let mut deep = nest;
    let mut k = n;
    loop {
        match lexer::glance(s, i, deep) {
            Seen::Blank => {
                i = names::blank_end(s, i);
                continue;
            }
            Seen::Newline => {
                return LineEnd::Newline(i + 1, k + 1);
            }
            Seen::Token(q) => {
                i = lexer::glanced_end(s, i, q);
                deep = lexer::nest_after(deep, q);
                k += 1;
                continue;
            }
            Seen::Nothing => {}
        }
        match lexer::next_step(s, i, deep) {
            Step::Gap(e) => {
                i = e;
            }
            Step::Tok(q, e, m) => {
                i = e;
                deep = m;
                if lexer::is_listed(full, q) {
                    k += 1;
                }
            }
            Step::Newline(e) => {
                return LineEnd::Newline(e, k + 1);
            }
            Step::Error(w, p) => {
                return LineEnd::Error(w, p, k);
            }
            Step::End => {
                return LineEnd::End(i, k + 1);
            }
        }
    }
}

// A line after its start, of which so many records are pending: an ending at its first item drops them, and a glance shows most
// often that there is none. A token that is told by a step is not stepped over again; what is rare is left to the rest of the line.
fn measure_line(s: &[u8], full: bool, from: usize, due: usize, n: usize) -> LineEnd
    requires { LineOk s.now from due n }
    ensures { Lined full s.now from due n result }
{
    if lexer::glance(s, from, 0).goes_on() {
        return measure_rest(s, full, from, 0, n + due);
    }
    match lexer::next_step(s, from, 0) {
        Step::Gap(_) => measure_rest(s, full, from, 0, n + due),
        Step::Tok(k, e, m) => {
            if lexer::is_note(k) {
                return measure_rest(s, full, from, 0, n + due);
            }
            measure_rest(s, full, e, m, n + due + 1)
        }
        Step::Newline(_) => measure_rest(s, full, from, 0, n + due),
        Step::Error(w, p) => LineEnd::Error(w, p, n),
        Step::End => LineEnd::End(from, n + due),
    }
}

// How many comments and newlines stand before a line's first token.
pub fn count_notes(s: &[u8], at: usize) -> usize
    requires { at ≤ length s.now }
    ensures { result ≡ length (notes (place_at s.now at)) }
{
    let mut i = at;
    let mut k: usize = 0;
    while let Some(note) = indentation::next_note(s, i) {
        i = note.to;
        k += 1;
    }
    k
}

// How many of them are listed.
pub fn noted(s: &[u8], full: bool, at: usize) -> usize
    requires { at ≤ length s.now }
    ensures { result ≡ length (listed_records full (notes (place_at s.now at))) }
{
    if full {
        return count_notes(s, at);
    }
    0
}

// A text from a line's start on, where so many levels are open. Inlined, as `filling::fill` is: both come into `reading::finish`, where
// they share one frame.
#[inline(always)]
pub fn measure(
    s: &[u8],
    full: bool,
    held: [Level; MOST_LEVELS],
    deep: usize,
    from: usize,
    first: usize,
) -> Tally
    requires { TextOk s.now held deep from first }
    ensures { Measured full s.now held deep from first result }
{
    let mut levels = held;
    let mut top = indentation::top(levels, deep);
    let mut depth = deep;
    let mut at = from;
    let mut n = first;
    loop {
        let l = match rounds::start_line(s, levels, top, depth, at) {
            Ok(l) => l,
            Err((w, p)) => {
                return Tally {
                    ending: Some(w),
                    count: n,
                    place: p,
                };
            }
        };
        let next = l.depth;
        let due = noted(s, full, at) + (l.indents + l.dedents);
        match measure_line(s, full, l.from, due, n) {
            LineEnd::Error(w, p, k) => {
                return Tally {
                    ending: Some(w),
                    count: k,
                    place: p,
                };
            }
            LineEnd::End(p, k) => {
                return Tally {
                    ending: None,
                    count: k + next,
                    place: p,
                };
            }
            LineEnd::Newline(e, k) => {
                at = e;
                n = k;
                depth = next;
                top = l.blanks;
                if l.indents == 0 {
                    continue;
                }
                levels[next - 1] = top;
            }
        }
    }
}
