// String literals: how one opens, and where it ends.

#![tactic(auto)]

ghost use Rattle.std.specs.Prelude.{◌≡◌, true, false, ◌<◌, ◌≤◌, eqb};
ghost use Rattle.choice.specs.Choice.{both};
ghost use Rattle.window.specs.Place.{place_at, nth};
ghost use Rattle.window.specs.Promises.{place};
ghost use Rattle.strings.specs.Strings.{is_quote, lower, one_letter, beside_r, two_letters, opening_of, ahead, triple_at, body, string_at};

use token::{Ending, Item, StringKind, Token};
use utf8::ascii;
use window::Cursor;

// A double or a single quote.
#[tactic(auto, using(choice::proofs::Laws::tests), unfolding(crate::specs::Strings::is_quote))]
fn is_quote(c: u32) -> bool
    ensures { is_quote c ≡ result }
{
    c == ascii::DOUBLE_QUOTE || c == ascii::QUOTE
}

// A letter of ASCII in lower case.
#[tactic(auto, using(choice::proofs::Laws::tests), unfolding(crate::specs::Strings::lower))]
fn lowered(c: u32) -> u32
    ensures { result ≡ lower c }
{
    match c {
        ascii::A..=ascii::Z => c + ascii::CASE_DISTANCE,
        _ => c,
    }
}

// The prefixes of one letter.
#[tactic(auto, using(choice::proofs::Laws::tests), unfolding(crate::specs::Strings::one_letter))]
fn one_letter(a: u32) -> Option<(StringKind, usize)>
    ensures { result ≡ one_letter a }
{
    match a {
        ascii::SMALL_R => Some((StringKind::RawString, 1)),
        ascii::SMALL_F => Some((StringKind::FString, 1)),
        ascii::SMALL_U => Some((StringKind::Unicode, 1)),
        ascii::SMALL_B => Some((StringKind::Bytes, 1)),
        _ => None,
    }
}

// The other letter of a prefix that has an r.
#[tactic(auto, using(choice::proofs::Laws::tests), unfolding(crate::specs::Strings::beside_r))]
fn beside_r(a: u32) -> Option<(StringKind, usize)>
    ensures { result ≡ beside_r a }
{
    match a {
        ascii::SMALL_F => Some((StringKind::RawFString, 2)),
        ascii::SMALL_B => Some((StringKind::RawBytes, 2)),
        _ => None,
    }
}

// The prefixes of two letters.
#[tactic(auto, using(choice::proofs::Laws::tests), unfolding(crate::specs::Strings::two_letters))]
fn two_letters(a: u32, b: u32) -> Option<(StringKind, usize)>
    ensures { result ≡ two_letters a b }
{
    if a == ascii::SMALL_R {
        return beside_r(b);
    }
    if b == ascii::SMALL_R {
        return beside_r(a);
    }
    None
}

// How a literal opens whose first three characters these are: its kind, and how many characters stand before its quote; or no literal.
#[tactic(auto, using(crate::proofs::Openings::opens))]
pub fn opening_of(a: u32, b: u32, c: u32) -> Option<(StringKind, usize)>
    ensures { result ≡ opening_of a b c }
{
    if is_quote(a) {
        return Some((StringKind::String, 0));
    }
    if is_quote(b) {
        return one_letter(lowered(a));
    }
    if is_quote(c) {
        return two_letters(lowered(a), lowered(b));
    }
    None
}

// The rest of a literal that is not triple-quoted, from its body on.
// Kept: a `while`: a backslash takes along the character behind it, so the place goes on by more than an iterator's one byte.
fn single_end(s: &[u8], at: usize, q: u32, kind: StringKind) -> Item
    requires { q < 128 }
    ensures { result ≡ body kind false q (place_at s.now at) }
{
    let mut i = at;
    while i < s.len() {
        let b = s[i] as u32;
        if b == ascii::BACKSLASH {
            i = window::char_end(s, i + 1);
        } else {
            if names::is_newline(b) {
                return Item::Error(Ending::EolInString, window::char_end(s, i));
            }
            if b == q {
                return Item::Tok(Token::Str(kind, false), i + 1);
            }
            i += 1;
        }
    }
    Item::Error(Ending::StringError, i)
}

// Whether three quotes stand here.
fn triple_at(s: &[u8], at: usize, q: u32) -> bool
    requires { q < 128 }
    ensures { triple_at q (place_at s.now at).rest ≡ result }
{
    utf8::byte(s, at) == q && utf8::byte(s, at + 1) == q && utf8::byte(s, at + 2) == q
}

// The rest of a literal in three quotes, from its body on.
// Kept: a `while` as in `single_end`, and not one loop with it: a newline ends that one, and here three quotes are looked for.
fn triple_end(s: &[u8], at: usize, q: u32, kind: StringKind) -> Item
    requires { q < 128 }
    ensures { result ≡ body kind true q (place_at s.now at) }
{
    let mut i = at;
    while i < s.len() {
        let b = s[i];
        if b == b'\\' {
            i = window::char_end(s, i + 1);
        } else {
            if triple_at(s, i, q) {
                return Item::Tok(Token::Str(kind, true), i + 3);
            }
            i += 1;
        }
    }
    Item::Error(Ending::Eof, i)
}

// Whether the two characters behind a quote are the same quote.
#[tactic(auto, using(choice::proofs::Laws::tests))]
fn is_triple(q: u32, b: u32, c: u32) -> bool
    ensures { both (eqb b q) (eqb c q) ≡ result }
{
    b == q && c == q
}

// The cursor behind a prefix of so many letters, at the quote.
#[tactic(auto, using(crate::proofs::Openings::past_none, crate::proofs::Openings::past_one, crate::proofs::Openings::past_two))]
pub fn past_prefix<'a>(cur: Cursor<'a>, letters: usize) -> Cursor<'a>
    requires { letters ≤ 2 }
    ensures text { result.text.now ≡ cur.entry.text.now }
    ensures place { place result ≡ ahead letters (place cur.entry) }
{
    if letters == 0 {
        return cur;
    }
    let next = cur.slide();
    if letters == 1 {
        return next;
    }
    next.slide()
}

// The literal of a kind, from its opening quote on.
pub fn lex_string(cur: Cursor<'_>, kind: StringKind) -> Item
    requires { is_quote (nth (place cur) 0) ≡ true }
    ensures { result ≡ string_at kind (place cur.entry) }
{
    let [q, b, c] = cur.window;
    if is_triple(q, b, c) {
        return triple_end(cur.text, cur.ahead, q, kind);
    }
    single_end(cur.text, cur.at + 1, q, kind)
}
