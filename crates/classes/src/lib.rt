// Classes of characters: what starts an identifier, what continues one, and what is an emoji.
//
// ASCII is answered by comparisons. For any other character a small part of the class's table is
// picked, and searched.

#![tactic(auto)]

mod tables;

ghost use Rattle.std.specs.Prelude.{true, ◌≡◌};
ghost use Rattle.classes.specs.Ranges.{in_ranges};
ghost use Rattle.classes.specs.Promises.{ordered, flat, is_ascii_start, is_ascii_continuation, continuation_bits, bit_at};
ghost use Rattle.classes.specs.Classes.{is_identifier_start, is_identifier_continuation, is_emoji};

use tables::{continue_part, emoji_part, start_part};

// Whether a range of `t` holds `c`: the first that does not end below it, if one does.
fn in_table(t: &[(u32, u32)], c: u32) -> bool
    requires { ordered 0 (flat t.now) ≡ true }
    ensures { in_ranges (flat t.now) c ≡ result }
{
    let k = t.partition_point(|range| range.1 < c);
    k < t.len() && t[k].0 <= c
}

// Whether a byte is a letter of ASCII or the underscore. Lower case, the most frequent, comes first.
// Kept: with `matches!` in place of the tests measuring is 8 % slower.
#[tactic(auto, using(choice::proofs::Laws::tests), unfolding(crate::specs::Promises::is_ascii_start))]
pub fn is_ascii_start(b: u8) -> bool
    ensures { is_ascii_start b ≡ result }
{
    if b'a' <= b {
        return b <= b'z';
    }
    if b < b'A' {
        return false;
    }
    if b <= b'Z' {
        return true;
    }
    b == b'_'
}

// The letters, the digits and the underscore among 64 bytes of ASCII, one bit for each.
#[tactic(auto, using(choice::proofs::Laws::tests), unfolding(crate::specs::Promises::continuation_bits))]
fn continuation_bits(b: u8) -> u64
    ensures { result ≡ continuation_bits b }
{
    if b < 64 {
        return 0x03ff000000000000;
    }
    0x07fffffe87fffffe
}

// The bit of a byte in a number that has one for each of 64 bytes.
pub fn bit_at(bits: u64, b: u8) -> bool
    ensures { bit_at bits b ≡ result }
{
    let k = (b & 63) as u64;
    (bits >> k) & 1 == 1
}

// Whether a byte is a letter or digit of ASCII or the underscore: a bit is looked at, as names mix these classes and a comparison
// for each would be foreseen badly.
pub fn is_ascii_continuation(b: u8) -> bool
    ensures { is_ascii_continuation b ≡ result }
{
    if b < 128 {
        return bit_at(continuation_bits(b), b);
    }
    false
}

// Whether a character starts an identifier.
// Kept: the three classes share `in_table`; one function of the bound, the test below it and the part would be no shorter to call.
pub fn is_identifier_start(c: u32) -> bool
    ensures { is_identifier_start c ≡ result }
{
    if c < 0x80 {
        return is_ascii_start(c as u8);
    }
    let part = start_part(c);
    in_table(&part, c)
}

// Whether a character continues an identifier.
pub fn is_identifier_continuation(c: u32) -> bool
    ensures { is_identifier_continuation c ≡ result }
{
    if c < 0x80 {
        return is_ascii_continuation(c as u8);
    }
    let part = continue_part(c);
    in_table(&part, c)
}

// Whether a character is shown as an emoji by default.
pub fn is_emoji(c: u32) -> bool
    ensures { is_emoji c ≡ result }
{
    if c < 0x2300 {
        return false;
    }
    let part = emoji_part(c);
    in_table(&part, c)
}
