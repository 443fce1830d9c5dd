// One reader by value: it gives a reading's records one at a time, and then its ending. The levels stay with who drives it.

#![tactic(auto)]

ghost use Rattle.std.specs.Prelude.{◌≡◌, ◌+◌, ◌-◌, ◌<◌, ◌≤◌, length, set, eqb};
ghost use Rattle.choice.specs.Choice.{both};
ghost use Rattle.records.specs.Limits.{places};
ghost use Rattle.records.specs.Records.{spanned, spanned_of};
ghost use Rattle.records.specs.Promises.{NumbersOk};
ghost use Rattle.reader.specs.Promises.{at_margin, at_end, at_ending, at_error, blanks_of, PendingOk, past_margin, within, giving, ending, last_given, OpenReady, Opens, StoreOk, Kept, Ready, DueReady, PendReady, pending_given, ItemReady, Takes};

use indentation::Level;
use lexer::Step;
use rounds::{NextToken, Pending};
use token::{Ending, Record, Token};

// The places of the levels: a reader's depth says how many of them are open.
#[derive(Clone, Copy)]
pub struct Held {
    pub levels: [Level; indentation::MOST_LEVELS],
}

// Where a reading stands between two records. No door goes by it today; its laws (proofs/Gives, proofs/Opens) speak of these fields.
// - at, above, nest: its place, how many lines stand above it, and the brackets that are open there; depth, top: the open levels, and the
//   innermost of them.
// - full: whether notes (comments, and newlines that end no logical line) are listed. line: whether a soft keyword may come next.
// - margin: it is at a line's start. first: nothing of its line stands before it.
// - due: of the line's start there may be left to give the notes from the byte `note` on, which has `noted` lines above it, an Indent of so
//   many blanks, so many Dedents.
// - on: it goes on; or else it has ended, with this code, place and detail.
#[derive(Clone, Copy)]
pub struct Reader {
    pub at: usize,
    pub above: usize,
    pub nest: usize,
    pub depth: usize,
    pub top: Level,
    pub note: usize,
    pub noted: usize,
    pub indent: usize,
    pub dedents: usize,
    pub full: bool,
    pub line: bool,
    pub margin: bool,
    pub first: bool,
    pub due: bool,
    pub on: bool,
    pub code: u32,
    pub place: usize,
    pub detail: u32,
}

// A record, if there is one at once, and the reader after it.
#[derive(Clone, Copy)]
pub struct Given {
    pub more: bool,
    pub item: Record,
    pub next: Reader,
}

// A reader at a line's start.
pub fn at_margin(
    full: bool,
    at: usize,
    above: usize,
    depth: usize,
    top: Level,
    line: bool,
) -> Reader
    ensures { result ≡ at_margin full at above depth top line }
{
    Reader {
        at,
        above,
        nest: 0,
        depth,
        top,
        note: 0,
        noted: 0,
        indent: 0,
        dedents: 0,
        full,
        line,
        margin: true,
        first: true,
        due: false,
        on: true,
        code: 0,
        place: 0,
        detail: 0,
    }
}

// A reader at the text's end, with so many Dedents left.
fn at_end(at: usize, above: usize, dedents: usize) -> Reader
    ensures { result ≡ at_end at above dedents }
{
    let mut r = at_margin(false, at, above, 0, Level { tabs: 0, spaces: 0 }, true);
    r.margin = false;
    r.due = true;
    r.dedents = dedents;
    r
}

// A reader that has ended.
pub fn at_ending(code: u32, place: usize, detail: u32) -> Reader
    ensures { result ≡ at_ending code place detail }
{
    let mut r = at_margin(false, 0, 0, 0, Level { tabs: 0, spaces: 0 }, true);
    r.margin = false;
    r.on = false;
    r.code = code;
    r.place = place;
    r.detail = detail;
    r
}

// One that has ended with an error.
fn at_error(w: Ending, p: usize) -> Reader
    ensures { result ≡ at_error w p }
{
    at_ending(token::code_of(w), p, token::detail_of(w))
}

// The blanks of a new level, or none.
fn indent_of(indents: usize, blanks: usize) -> usize
    ensures { result ≡ blanks_of indents blanks }
{
    if indents == 0 {
        return 0;
    }
    blanks
}

// The reader after a line's start, with so many lines above its first item.
fn past_margin(c: Reader, l: Pending, above: usize) -> Reader
    requires { PendingOk l }
    ensures { result ≡ past_margin c l above }
{
    let moved = l.indents + l.dedents;
    let line = soft_keywords::or_moved(c.line, moved);
    let mut r = at_margin(c.full, l.from, above, l.depth, l.blanks, line);
    r.note = c.at;
    r.noted = c.above;
    r.indent = indent_of(l.indents, l.blanks.tabs + l.blanks.spaces);
    r.dedents = l.dedents;
    r.margin = false;
    r.due = soft_keywords::or_moved(c.full, moved);
    r
}

// An ending at a line's first item drops what its start would give; a glance shows most often that there is none.
fn kept(s: &[u8], c: Reader) -> Reader
    requires { c.at ≤ length s.now }
    ensures { Kept s.now c result }
{
    if lexer::glance(s, c.at, 0).goes_on() {
        return c;
    }
    match lexer::next_step(s, c.at, 0) {
        Step::Error(w, p) => at_error(w, p),
        Step::Gap(_) => c,
        Step::Tok(_, _, _) => c,
        Step::Newline(_) => c,
        Step::End => c,
    }
}

// A line's start is read. Where an Indent is then to give, its level is new: `stored` keeps it.
pub fn open_line(s: &[u8], h: Held, c: Reader) -> Reader
    requires { OpenReady s.now h.levels c }
    ensures { Opens s.now h.levels c result }
{
    let levels = h.levels;
    match rounds::start_line(s, levels, c.top, c.depth, c.at) {
        Err((w, p)) => at_error(w, p),
        Ok(l) => {
            let above = c.above + lines::line_ends(s, c.at, l.from);
            let next = past_margin(c, l, above);
            if next.due {
                return kept(s, next);
            }
            next
        }
    }
}

// The places of the levels with the innermost one stored.
pub fn stored(h: Held, c: Reader) -> Held
    requires { StoreOk h.levels c }
    ensures { result ≡ record { levels = set h.levels (c.depth - 1) c.top } }
{
    let mut levels = h.levels;
    let top = c.top;
    levels[c.depth - 1] = top;
    Held { levels }
}

// A record is given.
fn one(start: u32, kind: u32, from: usize, to: usize, line: usize, next: Reader) -> Given
    requires { NumbersOk start from to line }
    ensures { result ≡ giving start (spanned kind from to) line next }
{
    Given {
        more: true,
        item: records::moved(start as usize, kind, from, to, line),
        next,
    }
}

// A token's record is given.
fn one_token(start: u32, t: Token, from: usize, to: usize, line: usize, next: Reader) -> Given
    requires { NumbersOk start from to line }
    ensures { result ≡ giving start (spanned_of t from to) line next }
{
    one(start, token::kind_of(t), from, to, line, next)
}

// None is left.
fn none(next: Reader) -> Given
    ensures { result ≡ ending next }
{
    Given {
        more: false,
        item: records::blank(),
        next,
    }
}

// The reader within a line, after a token.
fn within(c: Reader, at: usize, above: usize, nest: usize, line: bool) -> Reader
    ensures { result ≡ within c at above nest line }
{
    let mut r = c;
    r.at = at;
    r.above = above;
    r.nest = nest;
    r.line = line;
    r.first = false;
    r.due = false;
    r
}

// The text's end, with so many lines above it: a Newline within a line; else a Dedent for each open level, and then no more.
fn last(start: u32, c: Reader, a: usize, above: usize) -> Given
    requires { NumbersOk start a a above }
    ensures { result ≡ last_given start c a above }
{
    let depth = c.depth;
    if is_bare(c.first, a, c.at) {
        if depth == 0 {
            return none(at_ending(0, a, 0));
        }
        return one_token(
            start,
            Token::Dedent,
            a,
            a,
            above,
            at_end(a, above, depth - 1),
        );
    }
    one_token(start, Token::Newline, a, a, above, at_end(a, above, depth))
}

// Whether a text ends at a line's start.
fn is_bare(first: bool, a: usize, at: usize) -> bool
    ensures { both first (eqb a at) ≡ result }
{
    if first {
        return a == at;
    }
    false
}

// What stands at the reader's place, nothing of the line's start being left.
fn next_item(s: &[u8], start: u32, c: Reader) -> Given
    requires { ItemReady s.now start c }
    ensures { Takes s.now start c result }
{
    let found = rounds::next_token(s, c.full, c.at, c.nest);
    let token = found.token;
    match token {
        NextToken::Tok(k, a, e, m) => {
            let kind = soft_keywords::soft_kind(s, c.full, e, c.line, k);
            let line = soft_keywords::line_start_after(c.line, k);
            let above = c.above + found.before;
            let below = above + found.within;
            let next = within(c, e, below, m, line);
            one(start, kind, a, e, above, next)
        }
        NextToken::Newline(a, e) => {
            let above = c.above + found.before;
            let below = above + found.within;
            let next = at_margin(c.full, e, below, c.depth, c.top, true);
            one_token(start, Token::Newline, a, e, above, next)
        }
        NextToken::End(a) => last(start, c, a, c.above + found.before),
        NextToken::Error(w, p) => none(at_error(w, p)),
    }
}

// An Indent or a Dedent of a line's start, no note of it being left; without one, nothing of it is.
fn next_pending(start: u32, c: Reader) -> Given
    requires { PendReady start c }
    ensures { result ≡ pending_given start c }
{
    let at = c.at;
    let mut next = c;
    if 0 < c.indent {
        next.indent = 0;
        return one_token(start, Token::Indent, at - c.indent, at, c.above, next);
    }
    if 0 < c.dedents {
        next.dedents = c.dedents - 1;
        return one_token(start, Token::Dedent, at, at, c.above, next);
    }
    next.due = false;
    none(next)
}

// What is left of a line's start: its notes come first.
fn next_due(s: &[u8], start: u32, c: Reader) -> Given
    requires { DueReady s.now start c }
    ensures { Takes s.now start c result }
{
    if c.full {
        if let Some(note) = indentation::next_note(s, c.note) {
            let line = c.noted + lines::line_ends(s, c.note, note.from);
            let mut next = c;
            next.note = note.to;
            next.noted = line + lines::line_ends(s, note.from, note.to);
            return one(start, note.kind, note.from, note.to, line, next);
        }
    }
    next_pending(start, c)
}

// The next record, if there is one at once. Without one, the reader goes on, or has ended.
pub fn next(s: &[u8], start: u32, c: Reader) -> Given
    requires { Ready s.now start c }
    ensures { Takes s.now start c result }
{
    if c.on {
        if c.due {
            return next_due(s, start, c);
        }
        return next_item(s, start, c);
    }
    none(c)
}
