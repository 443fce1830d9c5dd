// Tokens, endings and records, and the numbers that document 01 gives them.

#![tactic(auto)]

ghost use Rattle.std.specs.Prelude.{◌≡◌};
ghost use Rattle.token.specs.Brackets.{is_opener, is_closer, opener_of};
ghost use Rattle.token.specs.Codes.{string_kind, kind_of, code_of, detail_of};

// Kinds of tokens as document 01 numbers them; document 02 item 1 adds COMMENT and NON_LOGICAL_NEWLINE.
// Kept: numbers and no enum, for a record that a caller lends may have any kind, and the definitions (specs/Kinds) number them.
pub const NEWLINE: u32 = 0;

pub const INDENT: u32 = 1;

pub const DEDENT: u32 = 2;

pub const NAME: u32 = 3;

pub const INT: u32 = 4;

pub const FLOAT: u32 = 5;

pub const COMPLEX: u32 = 6;

pub const COMMENT: u32 = 7;

pub const NON_LOGICAL_NEWLINE: u32 = 8;

// What three quotes add to a string's kind.
pub const TRIPLED: u32 = 7;

// Operators and delimiters, by the original's names.
pub const EQUAL: u32 = 30;

pub const EQ_EQUAL: u32 = 31;

pub const PLUS: u32 = 32;

pub const PLUS_EQUAL: u32 = 33;

pub const STAR: u32 = 34;

pub const STAR_EQUAL: u32 = 35;

pub const DOUBLE_STAR: u32 = 36;

pub const DOUBLE_STAR_EQUAL: u32 = 37;

pub const SLASH: u32 = 38;

pub const SLASH_EQUAL: u32 = 39;

pub const DOUBLE_SLASH: u32 = 40;

pub const DOUBLE_SLASH_EQUAL: u32 = 41;

pub const PERCENT: u32 = 42;

pub const PERCENT_EQUAL: u32 = 43;

pub const VBAR: u32 = 44;

pub const VBAR_EQUAL: u32 = 45;

pub const CIRCUMFLEX: u32 = 46;

pub const CIRCUMFLEX_EQUAL: u32 = 47;

pub const AMPER: u32 = 48;

pub const AMPER_EQUAL: u32 = 49;

pub const MINUS: u32 = 50;

pub const MINUS_EQUAL: u32 = 51;

pub const RARROW: u32 = 52;

pub const AT: u32 = 53;

pub const AT_EQUAL: u32 = 54;

pub const NOT_EQUAL: u32 = 55;

pub const TILDE: u32 = 56;

pub const LPAR: u32 = 57;

pub const RPAR: u32 = 58;

pub const LSQB: u32 = 59;

pub const RSQB: u32 = 60;

pub const LBRACE: u32 = 61;

pub const RBRACE: u32 = 62;

pub const COLON: u32 = 63;

pub const COLON_EQUAL: u32 = 64;

pub const SEMI: u32 = 65;

pub const LESS: u32 = 66;

pub const LEFT_SHIFT: u32 = 67;

pub const LEFT_SHIFT_EQUAL: u32 = 68;

pub const LESS_EQUAL: u32 = 69;

pub const GREATER: u32 = 70;

pub const RIGHT_SHIFT: u32 = 71;

pub const RIGHT_SHIFT_EQUAL: u32 = 72;

pub const GREATER_EQUAL: u32 = 73;

pub const COMMA: u32 = 74;

pub const DOT: u32 = 75;

pub const ELLIPSIS: u32 = 76;

// Keywords and soft keywords are numbered in the order of their lists.
pub const FIRST_KEYWORD: u32 = 100;

pub const LAMBDA: u32 = 124;

pub const FIRST_SOFT: u32 = 140;

pub const MATCH: u32 = FIRST_SOFT;

pub const CASE: u32 = 141;

pub const TYPE: u32 = 142;

// A string literal's prefix, with the kind of such a string in one quote.
#[derive(Clone, Copy)]
pub enum StringKind {
    String = 10,
    FString = 11,
    Bytes = 12,
    RawString = 13,
    RawFString = 14,
    RawBytes = 15,
    Unicode = 16,
}

// What a token is. A string has its prefix, and whether it is triple-quoted; an operator and a keyword have their numbers.
#[derive(Clone, Copy)]
pub enum Token {
    Newline,
    Indent,
    Dedent,
    Name,
    Int,
    Float,
    Complex,
    Comment,
    NonLogicalNewline,
    Str(StringKind, bool),
    Operator(u32),
    Keyword(u32),
}

// How a reading ends before the end of its text.
#[derive(Clone, Copy)]
pub enum Ending {
    StringError,
    Eof,
    NestingError,
    IndentationError,
    TabError,
    TabsAfterSpaces,
    UnrecognizedToken(u32),
    LineContinuationError,
    EolInString,
    InvalidSyntax,
    InvalidDecimal,
    InvalidToken,
    NoDigits,
    TooDeep,
}

// What stands at a place after a line's blanks: a token and its end, a gap and its end, the end of the text, or an error and its place.
// Kept: four ways on in one enum (document 01); nobody hands its error on as it is, so a Result would serve no `?`.
#[derive(Clone, Copy)]
pub enum Item {
    Tok(Token, usize),
    Gap(usize),
    End,
    Error(Ending, usize),
}

// A token in a list: its kind, the bytes where it starts and ends, and the line of its start. Its layout is C's, for the doors.
#[repr(C)]
#[derive(Clone, Copy)]
pub struct Record {
    pub kind: u32,
    pub start: u32,
    pub end: u32,
    pub line: u32,
}

// An opening bracket.
#[tactic(auto, using(choice::proofs::Laws::tests), unfolding(crate::specs::Brackets::is_opener))]
pub fn is_opener(k: u32) -> bool
    ensures { is_opener k ≡ result }
{
    k == LPAR || k == LSQB || k == LBRACE
}

// A closing bracket.
#[tactic(auto, using(choice::proofs::Laws::tests), unfolding(crate::specs::Brackets::is_closer))]
pub fn is_closer(k: u32) -> bool
    ensures { is_closer k ≡ result }
{
    k == RPAR || k == RSQB || k == RBRACE
}

// The opening bracket of a closing bracket's own kind.
#[tactic(auto, using(choice::proofs::Laws::tests), unfolding(crate::specs::Brackets::opener_of))]
pub fn opener_of(k: u32) -> u32
    ensures { result ≡ opener_of k }
{
    match k {
        RPAR => LPAR,
        RSQB => LSQB,
        _ => LBRACE,
    }
}

// The kind of a string that is not triple-quoted.
#[tactic(auto, unfolding(crate::specs::Codes::string_kind))]
fn string_kind(k: StringKind) -> u32
    ensures { result ≡ string_kind k }
{
    k as u32
}

// The kind of a token. Kept: `u32::from(t)` would not say which number of a token is meant.
#[tactic(auto, using(crate::proofs::Laws::string_between))]
pub fn kind_of(t: Token) -> u32
    ensures { result ≡ kind_of t }
{
    match t {
        Token::Newline => NEWLINE,
        Token::Indent => INDENT,
        Token::Dedent => DEDENT,
        Token::Name => NAME,
        Token::Int => INT,
        Token::Float => FLOAT,
        Token::Complex => COMPLEX,
        Token::Comment => COMMENT,
        Token::NonLogicalNewline => NON_LOGICAL_NEWLINE,
        Token::Str(k, true) => string_kind(k) + TRIPLED,
        Token::Str(k, false) => string_kind(k),
        Token::Operator(n) => n,
        Token::Keyword(n) => n,
    }
}

// The code of an ending. Kept: an ending holds its character (document 01), so that its ways have no discriminants.
#[tactic(auto, unfolding(crate::specs::Codes::code_of))]
pub fn code_of(e: Ending) -> u32
    ensures { result ≡ code_of e }
{
    match e {
        Ending::StringError => 20,
        Ending::Eof => 21,
        Ending::NestingError => 22,
        Ending::IndentationError => 23,
        Ending::TabError => 24,
        Ending::TabsAfterSpaces => 25,
        Ending::UnrecognizedToken(_) => 26,
        Ending::LineContinuationError => 27,
        Ending::EolInString => 28,
        Ending::InvalidSyntax => 29,
        Ending::InvalidDecimal => 30,
        Ending::InvalidToken => 31,
        Ending::NoDigits => 32,
        Ending::TooDeep => 33,
    }
}

// The detail of an ending: the character that no token starts with.
#[tactic(auto, unfolding(crate::specs::Codes::detail_of))]
pub fn detail_of(e: Ending) -> u32
    ensures { result ≡ detail_of e }
{
    match e {
        Ending::UnrecognizedToken(c) => c,
        _ => 0,
    }
}
