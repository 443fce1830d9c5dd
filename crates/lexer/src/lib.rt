// The lexer: what stands at a place, and what that does within brackets.

#![tactic(auto)]

ghost use Rattle.std.specs.Prelude.{◌≡◌, ◌+◌, ◌^◌, ◌<◌, ◌≤◌, length, IfSome};
ghost use Rattle.window.specs.Place.{place_at};
ghost use Rattle.window.specs.Promises.{place};
ghost use Rattle.lexer.specs.Items.{starts_number, continuation, other_at, operator_or_other, normal_at, item_at};
ghost use Rattle.lexer.specs.Steps.{token_step, step_at, nest_after, is_note, is_listed};
ghost use Rattle.lexer.specs.Promises.{starts_name, may_open, is_apart, Single, Alone, goes_on, glanced_at, Glanced};

use names::Lexed;
use strings::past_prefix;
use token::{Ending, Item, Token};
use utf8::ascii;
use window::Cursor;

// What an item does within so many brackets: a gap; a token with its kind, its end and the brackets after it; the Newline that ends
// a logical line; an error with its place; or the end of the text.
// Kept: ways on and an error in one enum (document 01); each caller adds its count or its lines to the error, so no `?` would serve.
#[derive(Clone, Copy)]
pub enum Step {
    Gap(usize),
    Tok(u32, usize, usize),
    Newline(usize),
    Error(Ending, usize),
    End,
}

// What a glance says: nothing, that more has to be looked at; a blank; the end of a line; or a token's kind, where NAME may be a
// keyword's too.
// Kept: no Option of a kind, for a blank and the end of a line are no tokens here, and the loops that ask go on differently at each.
#[derive(Clone, Copy)]
pub enum Seen {
    Nothing,
    Blank,
    Newline,
    Token(u32),
}

impl Seen {
    // A token, or the end of a line: the step is then none of the endings.
    #[tactic(auto, unfolding(crate::specs::Promises::goes_on))]
    pub fn goes_on(self) -> bool
        ensures { goes_on self ≡ result }
    {
        matches!(self, Seen::Newline | Seen::Token(_))
    }
}

// A digit, or a dot before a digit.
#[tactic(auto, using(choice::proofs::Laws::tests), unfolding(crate::specs::Items::starts_number))]
fn starts_number(a: u32, b: u32) -> bool
    ensures { starts_number a b ≡ result }
{
    numbers::is_digit_of_radix(10, a) || a == ascii::DOT && numbers::is_digit_of_radix(10, b)
}

// A backslash: it joins its line to the next.
fn lex_continuation(cur: Cursor<'_>) -> Item
    ensures { result ≡ continuation (place cur.entry) }
{
    let next = cur.slide();
    let b = next.window[0];
    if names::is_newline(b) {
        let e = next.next_char();
        let c = e.window[0];
        if c == utf8::NO_CHAR {
            return Item::Error(Ending::Eof, e.at);
        }
        return Item::Gap(e.at);
    }
    Item::Error(Ending::LineContinuationError, next.at)
}

// A comment, a newline, a continuation, an emoji, or what no token starts with.
fn lex_other(cur: Cursor<'_>) -> Item
    ensures { result ≡ other_at (place cur.entry) }
{
    let c = cur.window[0];
    if c == ascii::HASH {
        return Item::Tok(Token::Comment, names::comment_end(cur.text, cur.at));
    }
    if names::is_newline(c) {
        return Item::Tok(Token::Newline, cur.next_char().at);
    }
    if c == ascii::BACKSLASH {
        return lex_continuation(cur);
    }
    if c == ascii::EXCLAMATION {
        return Item::Error(Ending::UnrecognizedToken(ascii::EXCLAMATION), cur.at);
    }
    if classes::is_emoji(c) {
        return Item::Tok(Token::Name, cur.slide().at);
    }
    Item::Error(Ending::UnrecognizedToken(c), cur.slide().at)
}

// An operator, or something else.
fn consume_character(cur: Cursor<'_>) -> Item
    ensures { result ≡ operator_or_other (place cur.entry) }
{
    let w = cur.window;
    match operators::longest_operator(w) {
        Some((k, n)) => Item::Tok(Token::Operator(k), cur.at + n),
        None => lex_other(cur),
    }
}

// A name, a number, an operator, or something else.
fn consume_normal(cur: Cursor<'_>) -> Item
    ensures { result ≡ normal_at (place cur.entry) }
{
    let a = cur.window[0];
    let b = cur.window[1];
    if classes::is_identifier_start(a) {
        return names::lex_name(cur);
    }
    if starts_number(a, b) {
        return numbers::lex_number(cur);
    }
    consume_character(cur)
}

// A letter of ASCII or the underscore, and no letter of a string's prefix: one bit for each byte from 64 on.
fn starts_name(b: u8) -> bool
    ensures { starts_name b ≡ result }
{
    if b < 64 {
        return false;
    }
    if b < 128 {
        return classes::bit_at(0x07dbffba87dbffba, b);
    }
    false
}

// What stands at a byte: names and blanks, of which there are most, are told by their first byte.
pub fn next_item(s: &[u8], at: usize) -> Item
    ensures { result ≡ item_at (place_at s.now at) }
{
    if at < s.len() {
        let b = s[at];
        if starts_name(b) {
            return names::lex_identifier(s, at);
        }
        if b == b' ' {
            return Item::Gap(names::blank_end(s, at));
        }
    }
    consume(s, at)
}

// What stands at a byte, by the three characters from there: the cursor is made here, and handed on to whatever reads on.
fn consume(s: &[u8], at: usize) -> Item
    ensures { result ≡ item_at (place_at s.now at) }
{
    let cur = Cursor::new(s, at);
    let a = cur.window[0];
    let b = cur.window[1];
    let c = cur.window[2];
    if a == utf8::NO_CHAR {
        return Item::End;
    }
    if names::is_blank(a) {
        return Item::Gap(names::blank_end(s, at));
    }
    match strings::opening_of(a, b, c) {
        Some((k, n)) => strings::lex_string(past_prefix(cur, n), k),
        None => consume_normal(cur),
    }
}

// A token within so many brackets.
fn token_step(nest: usize, k: u32, e: usize) -> Step
    requires { nest < e }
    ensures { result ≡ token_step nest k e }
{
    if k == token::NEWLINE {
        if nest == 0 {
            return Step::Newline(e);
        }
        return Step::Tok(token::kind_of(Token::NonLogicalNewline), e, nest);
    }
    if token::is_opener(k) {
        return Step::Tok(k, e, nest + 1);
    }
    if token::is_closer(k) {
        if nest == 0 {
            return Step::Error(Ending::NestingError, e);
        }
        return Step::Tok(k, e, nest - 1);
    }
    Step::Tok(k, e, nest)
}

// What stands at a byte within so many brackets.
pub fn next_step(s: &[u8], at: usize, nest: usize) -> Step
    requires { (nest ≤ at) × (at ≤ length s.now) }
    ensures { result ≡ step_at s.now at nest }
{
    match next_item(s, at) {
        Item::Tok(t, e) => token_step(nest, token::kind_of(t), e),
        Item::Gap(e) => Step::Gap(e),
        Item::End => {
            if nest == 0 {
                return Step::End;
            }
            Step::Error(Ending::Eof, at)
        }
        Item::Error(w, e) => Step::Error(w, e),
    }
}

// A character after which a letter of a prefix may open a string: a quote, or another letter of a prefix.
#[tactic(auto, using(choice::proofs::Laws::tests), unfolding(crate::specs::Promises::may_open))]
fn may_open(c: u8) -> bool
    ensures { may_open c ≡ result }
{
    matches!(c, b'"' | b'\'' | b'B' | b'F' | b'R' | b'b' | b'f' | b'r')
}

// A character that makes no operator longer: a newline, a blank, or what stands behind `@` in ASCII, as letters do.
#[tactic(auto, using(choice::proofs::Laws::tests), unfolding(crate::specs::Promises::is_apart))]
fn is_apart(c: u8) -> bool
    ensures { is_apart c ≡ result }
{
    c <= b' ' || b'@' < c
}

// Brackets and the comma, which are one byte whatever follows.
fn single(b: u8) -> Option<u32>
    ensures { IfSome result (Single b) }
{
    match b {
        b'(' => Some(token::LPAR),
        b')' => Some(token::RPAR),
        b'[' => Some(token::LSQB),
        b']' => Some(token::RSQB),
        b'{' => Some(token::LBRACE),
        b'}' => Some(token::RBRACE),
        b',' => Some(token::COMMA),
        _ => None,
    }
}

// Operators that are one byte before a character that stands apart.
fn alone(b: u8) -> Option<u32>
    ensures { IfSome result (Alone b) }
{
    match b {
        b'.' => Some(token::DOT),
        b':' => Some(token::COLON),
        b'=' => Some(token::EQUAL),
        b'+' => Some(token::PLUS),
        b'-' => Some(token::MINUS),
        b'*' => Some(token::STAR),
        b'/' => Some(token::SLASH),
        b'%' => Some(token::PERCENT),
        b'<' => Some(token::LESS),
        b'>' => Some(token::GREATER),
        _ => None,
    }
}

// A glance at one or two bytes, which is enough for most steps. Inlined, so that the loops that ask make no value of the enum.
#[inline(always)]
pub fn glance(s: &[u8], at: usize, nest: usize) -> Seen
    requires { at ≤ length s.now }
    ensures { Glanced s.now at nest result }
{
    if s.len() <= at + 1 {
        return Seen::Nothing;
    }
    let b = s[at];
    if b == b' ' {
        return Seen::Blank;
    }
    if starts_name(b) {
        return Seen::Token(token::NAME);
    }
    if let Some(k) = single(b) {
        if nest == 0 && token::is_closer(k) {
            return Seen::Nothing;
        }
        return Seen::Token(k);
    }
    if b == b'\n' {
        if nest == 0 {
            return Seen::Newline;
        }
        return Seen::Nothing;
    }
    let c = s[at + 1];
    if 127 < c {
        return Seen::Nothing;
    }
    if classes::is_ascii_start(b) {
        if may_open(c) {
            return Seen::Nothing;
        }
        return Seen::Token(token::NAME);
    }
    if is_apart(c) {
        if let Some(k) = alone(b) {
            return Seen::Token(k);
        }
    }
    Seen::Nothing
}

// The end of the token that a glance means.
pub fn glanced_end(s: &[u8], at: usize, q: u32) -> usize
    requires { at ≤ length s.now }
    ensures { result ≡ (glanced_at s.now at q).end }
{
    if q == token::NAME {
        return names::name_end(s, at);
    }
    at + 1
}

// The token that a glance means.
pub fn glanced(s: &[u8], at: usize, q: u32) -> Lexed
    requires { at ≤ length s.now }
    ensures { result ≡ glanced_at s.now at q }
{
    if q == token::NAME {
        return names::lexed_name(s, at);
    }
    Lexed {
        kind: q,
        end: at + 1,
    }
}

// A comment, or a newline that ends no logical line.
#[tactic(auto, using(choice::proofs::Laws::tests), unfolding(crate::specs::Steps::is_note))]
pub fn is_note(k: u32) -> bool
    ensures { is_note k ≡ result }
{
    k == token::COMMENT || k == token::NON_LOGICAL_NEWLINE
}

// Whether a record of kind k is listed: a note is where notes are asked for.
#[tactic(auto, using(choice::proofs::Laws::tests), unfolding(crate::specs::Steps::is_listed))]
pub fn is_listed(full: bool, k: u32) -> bool
    ensures { is_listed full k ≡ result }
{
    full || !is_note(k)
}

// The brackets after a token.
pub fn nest_after(nest: usize, k: u32) -> usize
    requires { nest + 1 < 2 ^ 64 }
    ensures { result ≡ nest_after nest k }
{
    if token::is_opener(k) {
        return nest + 1;
    }
    if token::is_closer(k) {
        if nest == 0 {
            return 0;
        }
        return nest - 1;
    }
    nest
}
