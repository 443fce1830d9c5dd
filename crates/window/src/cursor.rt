// A cursor: it holds its text, and three characters ahead in a window, and is slid and passed by value.

ghost use Rattle.std.specs.Prelude.{◌≡◌};
ghost use Rattle.window.specs.Place.{place_at, slid, window as seen, next_char};

use crate::char_at;
use utf8::{NO_CHAR, ascii};

// A cursor on a text: its byte, the three characters from there, and the byte after them.
#[derive(Clone, Copy)]
pub struct Cursor<'a> {
    pub text: &'a [u8],
    pub at: usize,
    pub ahead: usize,
    pub window: [u32; 3],
    pub ghost shows: { window ≡ seen (place_at text.now at) },
    pub ghost reaches: { place_at text.now ahead ≡ slid (slid (slid (place_at text.now at))) },
}

impl<'a> Cursor<'a> {
    ghost use Rattle.window.specs.Promises.{place};

    // The cursor at a byte.
    pub fn new(text: &'a [u8], at: usize) -> Cursor<'a>
        ensures text { result.text.now ≡ text.now }
        ensures place { place result ≡ place_at text.now at }
    {
        let a = char_at(text, at);
        let b = char_at(text, a.next);
        let c = char_at(text, b.next);
        let window = [a.c, b.c, c.c];
        Cursor {
            text,
            at,
            ahead: c.next,
            window,
        }
    }

    // One character on, whatever it is.
    pub fn slide(self) -> Cursor<'a>
        ensures text { result.text.now ≡ self.entry.text.now }
        ensures place { place result ≡ slid (place self.entry) }
    {
        let c = self.window[0];
        if c == NO_CHAR {
            return self;
        }
        let at = self.at + utf8::bytes_of(c);
        let d = char_at(self.text, self.ahead);
        let x = self.window[1];
        let y = self.window[2];
        let window = [x, y, d.c];
        Cursor {
            text: self.text,
            at,
            ahead: d.next,
            window,
        }
    }

    // One character on; CR LF is one newline of two bytes.
    #[tactic(auto, using(crate::proofs::Laws::next_other, crate::proofs::Laws::next_lone, crate::proofs::Laws::next_pair))]
    pub fn next_char(self) -> Cursor<'a>
        ensures text { result.text.now ≡ self.entry.text.now }
        ensures place { place result ≡ next_char (place self.entry) }
    {
        let c = self.window[0];
        let next = self.slide();
        if c == ascii::CR {
            let d = next.window[0];
            if d == ascii::LF {
                return next.slide();
            }
        }
        next
    }
}
