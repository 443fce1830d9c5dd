// Characters of ASCII in the type of a decoded character, in the order of their numbers; of a byte the code writes b'#' itself.
// Operators and delimiters are named as their kinds in `token` are.
pub const TAB: u32 = b'\t' as u32;

pub const LF: u32 = b'\n' as u32;

pub const FORM_FEED: u32 = b'\x0c' as u32;

pub const CR: u32 = b'\r' as u32;

pub const SPACE: u32 = b' ' as u32;

pub const EXCLAMATION: u32 = b'!' as u32;

pub const DOUBLE_QUOTE: u32 = b'"' as u32;

pub const HASH: u32 = b'#' as u32;

pub const PERCENT: u32 = b'%' as u32;

pub const AMPER: u32 = b'&' as u32;

pub const QUOTE: u32 = b'\'' as u32;

pub const LPAR: u32 = b'(' as u32;

pub const RPAR: u32 = b')' as u32;

pub const STAR: u32 = b'*' as u32;

pub const PLUS: u32 = b'+' as u32;

pub const COMMA: u32 = b',' as u32;

pub const MINUS: u32 = b'-' as u32;

pub const DOT: u32 = b'.' as u32;

pub const SLASH: u32 = b'/' as u32;

pub const ZERO: u32 = b'0' as u32;

pub const NINE: u32 = b'9' as u32;

pub const COLON: u32 = b':' as u32;

pub const SEMI: u32 = b';' as u32;

pub const LESS: u32 = b'<' as u32;

pub const EQUAL: u32 = b'=' as u32;

pub const GREATER: u32 = b'>' as u32;

pub const AT: u32 = b'@' as u32;

pub const A: u32 = b'A' as u32;

pub const F: u32 = b'F' as u32;

pub const Z: u32 = b'Z' as u32;

pub const LSQB: u32 = b'[' as u32;

pub const BACKSLASH: u32 = b'\\' as u32;

pub const RSQB: u32 = b']' as u32;

pub const CIRCUMFLEX: u32 = b'^' as u32;

pub const UNDERSCORE: u32 = b'_' as u32;

pub const SMALL_A: u32 = b'a' as u32;

pub const SMALL_B: u32 = b'b' as u32;

pub const SMALL_E: u32 = b'e' as u32;

pub const SMALL_F: u32 = b'f' as u32;

pub const SMALL_J: u32 = b'j' as u32;

pub const SMALL_O: u32 = b'o' as u32;

pub const SMALL_R: u32 = b'r' as u32;

pub const SMALL_U: u32 = b'u' as u32;

pub const SMALL_X: u32 = b'x' as u32;

pub const LBRACE: u32 = b'{' as u32;

pub const VBAR: u32 = b'|' as u32;

pub const RBRACE: u32 = b'}' as u32;

pub const TILDE: u32 = b'~' as u32;

// How far a small letter stands behind its capital.
pub const CASE_DISTANCE: u32 = SMALL_A - A;
