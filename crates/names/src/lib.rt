// Names and keywords, and the other runs of characters: comments and blanks. What ends in `_end` starts at a byte and answers the byte
// behind the run.

#![tactic(auto)]

pub mod keywords;

ghost use Rattle.std.specs.Prelude.{◌≡◌, true, false};
ghost use Rattle.window.specs.Place.{place_at, nth};
ghost use Rattle.window.specs.Promises.{place};
ghost use Rattle.classes.specs.Classes.{is_identifier_start, is_identifier_continuation};
ghost use Rattle.classes.specs.Promises.{is_ascii_continuation};
ghost use Rattle.names.specs.Runs.{is_newline, not_newline, is_blank};
ghost use Rattle.names.specs.Promises.{Tells, RunEnd, lexed_name};
ghost use Rattle.names.specs.Names.{name_at};

use keywords::keyword;
use token::{Item, Token};
use utf8::ascii;
use window::Cursor;

// The end of a comment: the newline behind it, or the end of the text.
pub fn comment_end(s: &[u8], at: usize) -> usize
    ensures { RunEnd not_newline s.now at result }
{
    run_end(s, at, |b| !is_newline(b as u32))
}

// The end of a run of blanks.
pub fn blank_end(s: &[u8], at: usize) -> usize
    ensures { RunEnd is_blank s.now at result }
{
    run_end(s, at, |b| is_blank(b as u32))
}

// The end of the bytes from a place on that pass a test. It is the end of a run of characters where the test tells the class.
fn run_end<F: Fn(u8) -> bool>(s: &[u8], at: usize, test: F) -> usize
    requires { F.IsAlwaysCallable test }
    ensures { (f : _) → Tells (F.post test) f → RunEnd f s.now at result }
{
    let mut i = at;
    while i < s.len() && test(s[i]) {
        i += 1;
    }
    i
}

// A space, a tab or a form feed.
#[tactic(auto, using(choice::proofs::Laws::tests), unfolding(crate::specs::Runs::is_blank))]
pub fn is_blank(c: u32) -> bool
    ensures { is_blank c ≡ result }
{
    c == ascii::SPACE || c == ascii::TAB || c == ascii::FORM_FEED
}

// LF or CR, after which an LF may follow.
#[tactic(auto, using(choice::proofs::Laws::tests), unfolding(crate::specs::Runs::is_newline))]
pub fn is_newline(c: u32) -> bool
    ensures { is_newline c ≡ result }
{
    c == ascii::LF || c == ascii::CR
}

// The end of the ASCII part of a name.
fn ascii_end(s: &[u8], at: usize) -> usize
    ensures { RunEnd is_ascii_continuation s.now at result }
{
    run_end(s, at, |b| classes::is_ascii_continuation(b))
}

// The end of a name, by characters.
// Kept: a loop of its own: characters have several bytes, so each turn goes on by a decoded character, where `run_end` tests bytes.
fn long_name_end(s: &[u8], at: usize) -> usize
    ensures { RunEnd is_identifier_continuation s.now at result }
{
    let mut i = at;
    loop {
        let a = window::char_at(s, i);
        if classes::is_identifier_continuation(a.c) {
            i = a.next;
        } else {
            return i;
        }
    }
}

// The end of a name from the end of its ASCII part on.
fn rest_end(s: &[u8], at: usize) -> usize
    requires { is_ascii_continuation (nth (place_at s.now at) 0) ≡ false }
    ensures { RunEnd is_identifier_continuation s.now at result }
{
    if at < s.len() && s[at] >= 0x80 {
        return long_name_end(s, at);
    }
    at
}

// The end of a name.
pub fn name_end(s: &[u8], at: usize) -> usize
    ensures { RunEnd is_identifier_continuation s.now at result }
{
    let i = ascii_end(s, at);
    rest_end(s, i)
}

// A name, or another token that a glance tells: its kind, and the byte behind it.
// Kept: the kind is a number, as records lend it; `end` is no flag's value, so an Option or a Result would say nothing more.
#[derive(Clone, Copy)]
pub struct Lexed {
    pub kind: u32,
    pub end: usize,
}

// The name at a place: only one that ends with its ASCII part can be a keyword.
pub fn lexed_name(s: &[u8], at: usize) -> Lexed
    ensures { result ≡ lexed_name (place_at s.now at) }
{
    let i = ascii_end(s, at);
    let e = rest_end(s, i);
    if i < e {
        return Lexed {
            kind: token::NAME,
            end: e,
        };
    }
    if i <= at {
        return Lexed {
            kind: token::NAME,
            end: e,
        };
    }
    let k = keyword(&s[at..i]);
    Lexed { kind: k, end: e }
}

// The name at a place, as a token.
pub fn lex_identifier(s: &[u8], at: usize) -> Item
    ensures { result ≡ name_at (place_at s.now at) }
{
    let w = lexed_name(s, at);
    let k = w.kind;
    if k == token::NAME {
        return Item::Tok(Token::Name, w.end);
    }
    Item::Tok(Token::Keyword(k), w.end)
}

// The end of a name that starts at a cursor: the window shows its first three characters, the run goes on behind them.
fn wide_name_end(cur: Cursor<'_>) -> usize
    requires { is_identifier_start (nth (place cur) 0) ≡ true }
    ensures { RunEnd is_identifier_continuation cur.entry.text.now cur.entry.at result }
{
    let a = cur.window[0];
    let b = cur.window[1];
    let second = cur.at + utf8::bytes_of(a);
    if classes::is_identifier_continuation(b) {
        let c = cur.window[2];
        if classes::is_identifier_continuation(c) {
            return long_name_end(cur.text, cur.ahead);
        }
        return second + utf8::bytes_of(b);
    }
    second
}

// The name that starts at a cursor, as a token: one that starts beyond ASCII is no keyword.
pub fn lex_name(cur: Cursor<'_>) -> Item
    requires { is_identifier_start (nth (place cur) 0) ≡ true }
    ensures { result ≡ name_at (place cur.entry) }
{
    let a = cur.window[0];
    if a < 0x80 {
        return lex_identifier(cur.text, cur.at);
    }
    Item::Tok(Token::Name, wide_name_end(cur))
}
