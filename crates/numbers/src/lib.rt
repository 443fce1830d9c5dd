// Numeric literals. A cursor with a window of three characters is slid and passed by value.

#![tactic(auto)]

ghost use Rattle.std.specs.Prelude.{◌≡◌, ◌≤◌};
ghost use Rattle.utf8.specs.Chars.{case_distance};
ghost use Rattle.window.specs.Promises.{place};
ghost use Rattle.numbers.specs.Numbers.{digit_value, is_digit, in_run, digits, is_letter, is_sign, at_exponent, float_end, exponent_digits, exponent_sign, exponent, after_fraction, fraction, integer, normal_number, radix_number, radix_of, number_at};

use token::{Ending, Item, Token};
use utf8::ascii;
use window::Cursor;

// What a letter counts from as a digit: `A` and `a` count 10.
const CAPITAL_BASE: u32 = ascii::A - 10;

const SMALL_BASE: u32 = ascii::SMALL_A - 10;

// The number at a cursor, where a digit stands, or a dot before one.
#[tactic(auto, using(crate::proofs::Laws::numbers))]
pub fn lex_number(cur: Cursor<'_>) -> Item
    ensures { result ≡ number_at (place cur.entry) }
{
    let a = cur.window[0];
    let b = cur.window[1];
    if a == ascii::ZERO {
        let radix = radix_of(b);
        if radix != 0 {
            return lex_number_radix(cur.slide().slide(), cur.at, radix);
        }
        return lex_normal_number(cur);
    }
    lex_normal_number(cur)
}

// The radix that the letter after a 0 names, 0 for another character.
// Kept: 0 for none and no Option, for that is what the definition `radix_of` says, and the promise is that the two are equal.
#[tactic(auto, using(choice::proofs::Laws::tests), unfolding(crate::specs::Numbers::radix_of))]
fn radix_of(c: u32) -> u32
    ensures { radix_of c ≡ result }
{
    if is_letter(ascii::SMALL_X, c) {
        return 16;
    }
    if is_letter(ascii::SMALL_O, c) {
        return 8;
    }
    if is_letter(ascii::SMALL_B, c) {
        return 2;
    }
    0
}

// After the letter of a radix; `start` is where the literal starts.
#[tactic(auto, using(crate::proofs::Laws::radix_none, crate::proofs::Laws::radix_some))]
fn lex_number_radix(cur: Cursor<'_>, start: usize, radix: u32) -> Item
    requires { radix ≤ 16 }
    ensures { result ≡ radix_number radix start (place cur.entry) }
{
    let e = radix_run(cur, radix);
    if e.at == cur.at {
        return Item::Error(Ending::NoDigits, start);
    }
    Item::Tok(Token::Int, e.at)
}

// A number with no radix letter.
#[tactic(auto, using(crate::proofs::Laws::normals))]
fn lex_normal_number(cur: Cursor<'_>) -> Item
    ensures { result ≡ normal_number (place cur.entry) }
{
    let e = radix_run(cur, 10);
    let a = e.window[0];
    if a == ascii::DOT {
        return lex_fraction(e);
    }
    let w = e.window;
    if at_exponent(w) {
        return lex_exponent(e);
    }
    if is_letter(ascii::SMALL_J, a) {
        return Item::Tok(Token::Complex, e.slide().at);
    }
    lex_integer(cur, e)
}

// An integer: one that starts with 0 must be zero, so its zeros end where its digits do.
#[tactic(auto, using(crate::proofs::Laws::integer_zero, crate::proofs::Laws::integer_wrong, crate::proofs::Laws::integer_plain))]
fn lex_integer(cur: Cursor<'_>, end: Cursor<'_>) -> Item
    ensures { result ≡ integer (place cur.entry) (place end.entry) }
{
    let a = cur.window[0];
    if a == ascii::ZERO {
        if radix_run(cur, 1).at == end.at {
            return Item::Tok(Token::Int, end.at);
        }
        return Item::Error(Ending::InvalidToken, end.at);
    }
    Item::Tok(Token::Int, end.at)
}

// At a dot: `1.5`, `.5`, `1.`.
#[tactic(auto, using(crate::proofs::Laws::fraction_under, crate::proofs::Laws::fraction_on))]
fn lex_fraction(cur: Cursor<'_>) -> Item
    ensures { result ≡ fraction (place cur.entry) }
{
    let b = cur.window[1];
    if b == ascii::UNDERSCORE {
        return Item::Error(Ending::InvalidSyntax, cur.at);
    }
    lex_after_fraction(radix_run(cur.slide(), 10))
}

// After a fraction's digits.
#[tactic(auto, using(crate::proofs::Laws::after_e, crate::proofs::Laws::after_plain))]
fn lex_after_fraction(cur: Cursor<'_>) -> Item
    ensures { result ≡ after_fraction (place cur.entry) }
{
    let a = cur.window[0];
    if is_letter(ascii::SMALL_E, a) {
        return lex_exponent(cur);
    }
    lex_float_end(cur)
}

// At an exponent's letter, as in `2e3`.
#[tactic(auto, using(crate::proofs::Laws::exponent_under, crate::proofs::Laws::exponent_on))]
fn lex_exponent(cur: Cursor<'_>) -> Item
    ensures { result ≡ exponent (place cur.entry) }
{
    let b = cur.window[1];
    if b == ascii::UNDERSCORE {
        return Item::Error(Ending::InvalidSyntax, cur.at);
    }
    lex_exponent_sign(cur.slide())
}

// After an exponent's letter.
#[tactic(auto, using(crate::proofs::Laws::sign_under, crate::proofs::Laws::sign_on, crate::proofs::Laws::sign_none))]
fn lex_exponent_sign(cur: Cursor<'_>) -> Item
    ensures { result ≡ exponent_sign (place cur.entry) }
{
    let a = cur.window[0];
    if is_sign(a) {
        let b = cur.window[1];
        if b == ascii::UNDERSCORE {
            return Item::Error(Ending::InvalidSyntax, cur.at);
        }
        return lex_exponent_digits(cur.slide());
    }
    lex_exponent_digits(cur)
}

// At an exponent's digits.
#[tactic(auto, using(crate::proofs::Laws::exponent_none, crate::proofs::Laws::exponent_some))]
fn lex_exponent_digits(cur: Cursor<'_>) -> Item
    ensures { result ≡ exponent_digits (place cur.entry) }
{
    let e = radix_run(cur, 10);
    if e.at == cur.at {
        return Item::Error(Ending::InvalidDecimal, cur.at);
    }
    lex_float_end(e)
}

// At a float's end, where a `j` may follow.
#[tactic(auto, using(crate::proofs::Laws::float_complex, crate::proofs::Laws::float_plain))]
fn lex_float_end(cur: Cursor<'_>) -> Item
    ensures { result ≡ float_end (place cur.entry) }
{
    let a = cur.window[0];
    if is_letter(ascii::SMALL_J, a) {
        return Item::Tok(Token::Complex, cur.slide().at);
    }
    Item::Tok(Token::Float, cur.at)
}

// The end of a run of digits: an underscore is taken only before a digit, as in `10_000`.
// Kept: a loop over a cursor, which each turn slides by one character and whose last place is the answer; `names::run_end` tests bytes.
fn radix_run<'a>(cur: Cursor<'a>, radix: u32) -> Cursor<'a>
    requires { radix ≤ 16 }
    ensures text { result.text.now ≡ cur.entry.text.now }
    ensures place { place result ≡ digits radix (place cur.entry) }
{
    let mut r = cur;
    loop {
        let a = r.window[0];
        let b = r.window[1];
        if in_run(radix, a, b) {
            r = r.slide();
        } else {
            return r;
        }
    }
}

// Whether a run of digits goes on over a character, before the next one.
#[tactic(auto, using(choice::proofs::Laws::tests), unfolding(crate::specs::Numbers::in_run))]
fn in_run(radix: u32, c: u32, next: u32) -> bool
    ensures { in_run radix c next ≡ result }
{
    is_digit_of_radix(radix, c) || c == ascii::UNDERSCORE && is_digit_of_radix(radix, next)
}

// Whether a character is a digit of a radix.
#[tactic(auto, unfolding(crate::specs::Numbers::is_digit))]
pub fn is_digit_of_radix(radix: u32, c: u32) -> bool
    ensures { is_digit radix c ≡ result }
{
    digit_value(c) < radix
}

// What a digit counts, 16 for what is none.
#[tactic(auto, using(choice::proofs::Laws::tests), unfolding(crate::specs::Numbers::digit_value))]
fn digit_value(c: u32) -> u32
    ensures { digit_value c ≡ result }
{
    match c {
        ascii::ZERO..=ascii::NINE => c - ascii::ZERO,
        ascii::A..=ascii::F => c - CAPITAL_BASE,
        ascii::SMALL_A..=ascii::SMALL_F => c - SMALL_BASE,
        _ => 16,
    }
}

// Whether an exponent with a digit begins at a window: `e6`, `e-6`.
#[tactic(auto, using(choice::proofs::Laws::tests), unfolding(crate::specs::Numbers::at_exponent))]
fn at_exponent(w: [u32; 3]) -> bool
    ensures { at_exponent w ≡ result }
{
    let [a, b, c] = w;
    is_letter(ascii::SMALL_E, a) && is_digit_of_radix(10, if is_sign(b) { c } else { b })
}

// Whether a character is a letter, in either case.
#[tactic(auto, using(choice::proofs::Laws::tests), unfolding(crate::specs::Numbers::is_letter))]
fn is_letter(small: u32, c: u32) -> bool
    requires { case_distance ≤ small }
    ensures { is_letter small c ≡ result }
{
    c == small || c == small - ascii::CASE_DISTANCE
}

// Whether a character is a sign.
#[tactic(auto, using(choice::proofs::Laws::tests), unfolding(crate::specs::Numbers::is_sign))]
fn is_sign(c: u32) -> bool
    ensures { is_sign c ≡ result }
{
    c == ascii::PLUS || c == ascii::MINUS
}
