// The second walk of a reading: its records are written into what is lent, a row or a list.
// Kept: places, counts and lines are parameters of their own, since a struct of them in each call goes through memory (docs/DECISIONS.md).

#![tactic(auto)]

ghost use Rattle.std.specs.Prelude.{◌≡◌, true, false, ℕ, ◌+◌, ◌-◌, ◌≤◌, length, List, ◌++◌};
ghost use Rattle.lines.specs.Lines.{line_at};
ghost use Rattle.window.specs.Place.{place_at};
ghost use Rattle.token.specs.Kinds as K;
ghost use Rattle.indentation.specs.Notes.{notes};
ghost use Rattle.indentation.specs.declared.Level.{Level};
ghost use Rattle.rounds.specs.Rounds.{state, dedents, listed_records, view};
ghost use Rattle.rounds.specs.Promises.{pending_records};
ghost use Rattle.soft_keywords.specs.SoftKeywords.{soft_kind};
ghost use Rattle.records.specs.Records.{room, puts};
ghost use Rattle.filling.specs.Promises.{NotesOk, StartOk, DedentsOk, PendingOk, ItemOk, RestOk, RestFilled, LineFill, LineFilled, TextFill, Filled};

use indentation::{Level, MOST_LEVELS};
use lexer::{Seen, Step};
use measuring::{LineEnd, Tally};
use records::{Slot, put, put_token};
use rounds::Pending;
use token::Token;

// How a line that was written ends, and how many lines stand above the place where the next one starts, or where the text ends.
#[derive(Clone, Copy)]
struct Written {
    end: LineEnd,
    above: usize,
}

// So many empty Dedents at a place, with so many lines above it.
fn put_dedents<T: Slot>(row: &mut [T], start: usize, i: usize, n: usize, p: usize, above: usize)
    requires { DedentsOk (room (T.numbers row.old)) start i n p above }
    ensures { (t : List ℕ) → above ≡ line_at t p → T.numbers row.new ≡ puts t start (T.numbers row.old) i (dedents n p) }
{
    for j in i..i + n {
        put_token(row, start, j, Token::Dedent, p, p, above);
    }
}

// What is pending after a line's start, of whose blanks and first item one is the line.
fn put_pending<T: Slot>(row: &mut [T], start: usize, n: usize, l: Pending, above: usize)
    requires { PendingOk (room (T.numbers row.old)) start n l above }
    ensures { (t : List ℕ) → above ≡ line_at t l.from → line_at t (l.from - (l.blanks.tabs + l.blanks.spaces)) ≡ line_at t l.from → T.numbers row.new ≡ puts t start (T.numbers row.old) n (pending_records l) }
{
    let from = l.from;
    if l.indents == 0 {
        put_dedents(row, start, n, l.dedents, from, above);
        return;
    }
    put_token(
        row,
        start,
        n,
        Token::Indent,
        from - (l.blanks.tabs + l.blanks.spaces),
        from,
        above,
    );
    put_dedents(row, start, n + 1, l.dedents, from, above);
}

// The comments and newlines of a line's start, one after another; the number of records then.
fn put_notes<T: Slot>(
    s: &[u8],
    row: &mut [T],
    start: usize,
    n: usize,
    at: usize,
    above: usize,
) -> usize
    requires { NotesOk s.now (room (T.numbers row.old)) start n at above }
    ensures { (T.numbers row.new ≡ puts s.now start (T.numbers row.old) n (notes (place_at s.now at))) × (result ≡ n + length (notes (place_at s.now at))) }
{
    let mut i = at;
    let mut k = n;
    let mut up = above;
    while let Some(note) = indentation::next_note(s, i) {
        let line = up + lines::line_ends(s, i, note.from);
        put(row, start, k, note.kind, note.from, note.to, line);
        up = line + lines::line_ends(s, note.from, note.to);
        i = note.to;
        k += 1;
    }
    k
}

// How many lines stand above a line's first item: where nothing but its blanks stands before it, no line end is looked for.
fn item_line(s: &[u8], at: usize, above: usize, l: Pending) -> usize
    requires { ItemOk s.now at above l }
    ensures { result ≡ line_at s.now l.from }
{
    if l.from - (l.blanks.tabs + l.blanks.spaces) == at {
        return above;
    }
    above + lines::line_ends(s, at, l.from)
}

// What a line's start at a byte hands out before its first item, which has `here` lines above it; the number of records then.
fn put_start<T: Slot>(
    s: &[u8],
    full: bool,
    row: &mut [T],
    start: usize,
    n: usize,
    at: usize,
    above: usize,
    l: Pending,
    here: usize,
) -> usize
    requires { StartOk full s.now (room (T.numbers row.old)) start n at above l here }
    ensures { (T.numbers row.new ≡ puts s.now start (T.numbers row.old) n (listed_records full (notes (place_at s.now at)) ++ pending_records l)) × (result ≡ n + (length (listed_records full (notes (place_at s.now at))) + (l.indents + l.dedents))) }
{
    let moved = l.indents + l.dedents;
    if full {
        let k = put_notes(s, row, start, n, at, above);
        put_pending(row, start, k, l, here);
        return k + moved;
    }
    put_pending(row, start, n, l, here);
    n + moved
}

// The kind after the second pass of a token that ends at `at`: most are no soft keywords, and are told without a call.
fn softened(s: &[u8], full: bool, at: usize, line: bool, k: u32) -> u32
    requires { at ≤ length s.now }
    ensures { (nest : ℕ) (ls : List Level) → (line ≡ true → K.first_soft ≤ k → nest ≡ 0) → result ≡ soft_kind line k (view full s.now (state at false nest ls)).recs }
{
    if k < token::FIRST_SOFT {
        return k;
    }
    soft_keywords::soft_kind(s, full, at, line, k)
}

// The rest of a line, from a place within so many brackets and with so many lines above it, n records before it. Most steps are
// told by a glance, and are in their line; in the others line ends are counted. Inlined, so that most lines need no call: what a call
// hands back goes through memory.
#[inline(always)]
fn fill_rest<T: Slot>(
    s: &[u8],
    full: bool,
    row: &mut [T],
    start: usize,
    at: usize,
    above: usize,
    nest: usize,
    n: usize,
    line: bool,
) -> Written
    requires { RestOk full s.now (T.numbers row.old) start at above nest n line }
    ensures { RestFilled full s.now (T.numbers row.old) (T.numbers row.new) start at nest n line result }
{
    let mut i = at;
    let mut up = above;
    let mut deep = nest;
    let mut k = n;
    let mut fresh = line;
    loop {
        match lexer::glance(s, i, deep) {
            Seen::Blank => {
                i = names::blank_end(s, i);
                continue;
            }
            Seen::Newline => {
                put_token(row, start, k, Token::Newline, i, i + 1, up);
                return Written {
                    end: LineEnd::Newline(i + 1, k + 1),
                    above: up + 1,
                };
            }
            Seen::Token(q) => {
                let w = lexer::glanced(s, i, q);
                let kind = softened(s, full, w.end, fresh, w.kind);
                put(row, start, k, kind, i, w.end, up);
                i = w.end;
                deep = lexer::nest_after(deep, q);
                k += 1;
                fresh = false;
                continue;
            }
            Seen::Nothing => {}
        }
        match lexer::next_step(s, i, deep) {
            Step::Gap(e) => {
                up += lines::line_ends(s, i, e);
                i = e;
            }
            Step::Tok(m, e, d) => {
                let next = up + lines::line_ends(s, i, e);
                if lexer::is_note(m) {
                    if full {
                        put(row, start, k, m, i, e, up);
                        i = e;
                        up = next;
                        deep = d;
                        k += 1;
                        continue;
                    }
                    i = e;
                    up = next;
                    deep = d;
                    continue;
                }
                let kind = softened(s, full, e, fresh, m);
                put(row, start, k, kind, i, e, up);
                i = e;
                up = next;
                deep = d;
                k += 1;
                fresh = false;
            }
            Step::Newline(e) => {
                put_token(row, start, k, Token::Newline, i, e, up);
                return Written {
                    end: LineEnd::Newline(e, k + 1),
                    above: up + lines::line_ends(s, i, e),
                };
            }
            Step::Error(w, p) => {
                return Written {
                    end: LineEnd::Error(w, p, k),
                    above: up,
                };
            }
            Step::End => {
                put_token(row, start, k, Token::Newline, i, i, up);
                return Written {
                    end: LineEnd::End(i, k + 1),
                    above: up,
                };
            }
        }
    }
}

// The same in a call, for the lines whose first item a glance does not show.
// Kept: it asks and promises what `fill_rest` does, since a function is inlined at each of its calls or at none.
fn rest_apart<T: Slot>(
    s: &[u8],
    full: bool,
    row: &mut [T],
    start: usize,
    at: usize,
    above: usize,
    nest: usize,
    n: usize,
    line: bool,
) -> Written
    requires { RestOk full s.now (T.numbers row.old) start at above nest n line }
    ensures { RestFilled full s.now (T.numbers row.old) (T.numbers row.new) start at nest n line result }
{
    fill_rest(s, full, row, start, at, above, nest, n, line)
}

// A line after its start: an ending at its first item drops what is pending, and a glance shows most often that there is none.
// A token that is told by a step is not stepped over again; what is rare is left to the rest of the line.
fn fill_line<T: Slot>(
    s: &[u8],
    full: bool,
    row: &mut [T],
    start: usize,
    n: usize,
    at: usize,
    above: usize,
    l: Pending,
    line: bool,
) -> Written
    requires { LineFill full s.now (T.numbers row.old) start n at above l }
    ensures { LineFilled full s.now (T.numbers row.old) (T.numbers row.new) start n at l line result }
{
    let from = l.from;
    let here = item_line(s, at, above, l);
    let fresh = soft_keywords::or_moved(line, l.indents + l.dedents);
    if lexer::glance(s, from, 0).goes_on() {
        let k = put_start(s, full, row, start, n, at, above, l, here);
        return fill_rest(s, full, row, start, from, here, 0, k, fresh);
    }
    match lexer::next_step(s, from, 0) {
        Step::Gap(_) => {
            let k = put_start(s, full, row, start, n, at, above, l, here);
            rest_apart(s, full, row, start, from, here, 0, k, fresh)
        }
        Step::Tok(m, e, d) => {
            if lexer::is_note(m) {
                let k = put_start(s, full, row, start, n, at, above, l, here);
                return rest_apart(s, full, row, start, from, here, 0, k, fresh);
            }
            let kind = soft_keywords::soft_kind(s, full, e, fresh, m);
            let k = put_start(s, full, row, start, n, at, above, l, here);
            put(row, start, k, kind, from, e, here);
            let next = here + lines::line_ends(s, from, e);
            rest_apart(s, full, row, start, e, next, d, k + 1, false)
        }
        Step::Newline(_) => {
            let k = put_start(s, full, row, start, n, at, above, l, here);
            rest_apart(s, full, row, start, from, here, 0, k, fresh)
        }
        Step::Error(w, p) => Written {
            end: LineEnd::Error(w, p, n),
            above: here,
        },
        Step::End => {
            let k = put_start(s, full, row, start, n, at, above, l, here);
            Written {
                end: LineEnd::End(from, k),
                above: here,
            }
        }
    }
}

// A text from a line's start on, where so many levels are open and so many lines stand above; `line` says whether a soft keyword may
// stand first. Inlined, as `measuring::measure` is.
#[inline(always)]
pub fn fill<T: Slot>(
    s: &[u8],
    full: bool,
    row: &mut [T],
    start: usize,
    held: [Level; MOST_LEVELS],
    deep: usize,
    from: usize,
    lines: usize,
    first: usize,
    line: bool,
) -> Tally
    requires { TextFill full s.now (T.numbers row.old) start held deep from lines first }
    ensures { Filled full s.now (T.numbers row.old) (T.numbers row.new) start held deep from first line result }
{
    let mut levels = held;
    let mut top = indentation::top(levels, deep);
    let mut depth = deep;
    let mut at = from;
    let mut above = lines;
    let mut n = first;
    let mut fresh = line;
    loop {
        let l = match rounds::start_line(s, levels, top, depth, at) {
            Ok(l) => l,
            Err((w, p)) => {
                return Tally {
                    ending: Some(w),
                    count: n,
                    place: p,
                };
            }
        };
        let next = l.depth;
        let written = fill_line(s, full, row, start, n, at, above, l, fresh);
        let end = written.end;
        match end {
            LineEnd::Error(w, p, k) => {
                return Tally {
                    ending: Some(w),
                    count: k,
                    place: p,
                };
            }
            LineEnd::End(p, k) => {
                put_dedents(row, start, k, next, p, written.above);
                return Tally {
                    ending: None,
                    count: k + next,
                    place: p,
                };
            }
            LineEnd::Newline(e, k) => {
                at = e;
                above = written.above;
                n = k;
                depth = next;
                fresh = true;
                top = l.blanks;
                if l.indents == 0 {
                    continue;
                }
                levels[next - 1] = top;
            }
        }
    }
}
