// Operators and delimiters: an operator is its number and how many characters it has.

#![tactic(auto)]

ghost use Rattle.std.specs.Prelude.{◌≡◌, get_or};
ghost use Rattle.operators.specs.Operators.{before_equal, doubled, dash, exclamation, dots, single, longest_operator};

use utf8::ascii;

// An operator alone, or before `=`.
#[tactic(auto, using(choice::proofs::Laws::tests), unfolding(crate::specs::Operators::before_equal))]
fn before_equal(b: u32, alone: u32, equal: u32) -> Option<(u32, usize)>
    ensures { result ≡ before_equal b alone equal }
{
    if b == ascii::EQUAL {
        return Some((equal, 2));
    }
    Some((alone, 1))
}

// An operator alone, before `=`, twice, or twice before `=`.
#[tactic(auto, using(choice::proofs::Laws::tests), unfolding(crate::specs::Operators::doubled))]
fn doubled(
    a: u32,
    b: u32,
    c: u32,
    alone: u32,
    equal: u32,
    two: u32,
    both: u32,
) -> Option<(u32, usize)>
    ensures { result ≡ doubled a b c alone equal two both }
{
    if b == ascii::EQUAL {
        return Some((equal, 2));
    }
    if b == a {
        if c == ascii::EQUAL {
            return Some((both, 3));
        }
        return Some((two, 2));
    }
    Some((alone, 1))
}

// `-`, `-=` and `->`.
#[tactic(auto, using(choice::proofs::Laws::tests), unfolding(crate::specs::Operators::dash))]
fn dash(b: u32) -> Option<(u32, usize)>
    ensures { result ≡ dash b }
{
    if b == ascii::GREATER {
        return Some((token::RARROW, 2));
    }
    before_equal(b, token::MINUS, token::MINUS_EQUAL)
}

// `!=`.
#[tactic(auto, using(choice::proofs::Laws::tests), unfolding(crate::specs::Operators::exclamation))]
fn exclamation(b: u32) -> Option<(u32, usize)>
    ensures { result ≡ exclamation b }
{
    if b == ascii::EQUAL {
        return Some((token::NOT_EQUAL, 2));
    }
    None
}

// `.` and `...`.
#[tactic(auto, using(choice::proofs::Laws::tests), unfolding(crate::specs::Operators::dots))]
fn dots(b: u32, c: u32) -> Option<(u32, usize)>
    ensures { result ≡ dots b c }
{
    if b == ascii::DOT && c == ascii::DOT {
        return Some((token::ELLIPSIS, 3));
    }
    Some((token::DOT, 1))
}

// Brackets and other characters that stand alone.
#[tactic(auto, using(choice::proofs::Laws::tests), unfolding(crate::specs::Operators::single))]
fn single(a: u32) -> Option<(u32, usize)>
    ensures { result ≡ single a }
{
    match a {
        ascii::TILDE => Some((token::TILDE, 1)),
        ascii::LPAR => Some((token::LPAR, 1)),
        ascii::RPAR => Some((token::RPAR, 1)),
        ascii::LSQB => Some((token::LSQB, 1)),
        ascii::RSQB => Some((token::RSQB, 1)),
        ascii::LBRACE => Some((token::LBRACE, 1)),
        ascii::RBRACE => Some((token::RBRACE, 1)),
        ascii::SEMI => Some((token::SEMI, 1)),
        ascii::COMMA => Some((token::COMMA, 1)),
        _ => None,
    }
}

// The longest operator that a window begins.
#[tactic(auto, using(choice::proofs::Laws::tests), unfolding(crate::specs::Operators::longest_operator))]
pub fn longest_operator(w: [u32; 3]) -> Option<(u32, usize)>
    ensures { result ≡ longest_operator (get_or w 0 0) (get_or w 1 0) (get_or w 2 0) }
{
    let [a, b, c] = w;
    match a {
        ascii::EQUAL => before_equal(b, token::EQUAL, token::EQ_EQUAL),
        ascii::PLUS => before_equal(b, token::PLUS, token::PLUS_EQUAL),
        ascii::STAR => doubled(
            ascii::STAR,
            b,
            c,
            token::STAR,
            token::STAR_EQUAL,
            token::DOUBLE_STAR,
            token::DOUBLE_STAR_EQUAL,
        ),
        ascii::SLASH => doubled(
            ascii::SLASH,
            b,
            c,
            token::SLASH,
            token::SLASH_EQUAL,
            token::DOUBLE_SLASH,
            token::DOUBLE_SLASH_EQUAL,
        ),
        ascii::PERCENT => before_equal(b, token::PERCENT, token::PERCENT_EQUAL),
        ascii::VBAR => before_equal(b, token::VBAR, token::VBAR_EQUAL),
        ascii::CIRCUMFLEX => before_equal(b, token::CIRCUMFLEX, token::CIRCUMFLEX_EQUAL),
        ascii::AMPER => before_equal(b, token::AMPER, token::AMPER_EQUAL),
        ascii::MINUS => dash(b),
        ascii::AT => before_equal(b, token::AT, token::AT_EQUAL),
        ascii::EXCLAMATION => exclamation(b),
        ascii::COLON => before_equal(b, token::COLON, token::COLON_EQUAL),
        ascii::LESS => doubled(
            ascii::LESS,
            b,
            c,
            token::LESS,
            token::LESS_EQUAL,
            token::LEFT_SHIFT,
            token::LEFT_SHIFT_EQUAL,
        ),
        ascii::GREATER => doubled(
            ascii::GREATER,
            b,
            c,
            token::GREATER,
            token::GREATER_EQUAL,
            token::RIGHT_SHIFT,
            token::RIGHT_SHIFT_EQUAL,
        ),
        ascii::DOT => dots(b, c),
        _ => single(a),
    }
}
