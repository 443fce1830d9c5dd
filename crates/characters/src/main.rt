// Reads standard input and prints a line for each of its characters: its place, its number and its width, all in bytes. CR LF is
// one newline of two bytes, a lone CR a newline too, and a BOM at the start is skipped. Of a text with an ill-formed sequence it
// prints only where the first one stands and its fault's number; input of more than 4,096 bytes is refused.

#![tactic(auto)]

ghost use Rattle.std.specs.Prelude.{◌≡◌};
ghost use Rattle.characters.specs.Promises.{folded};

use std::io;
use std::io::Write;
use utf8::{NO_CHAR, ascii};
use window::Cursor;

// The number that is shown: a newline has one number, however it is written.
#[tactic(auto, using(choice::proofs::Laws::tests), unfolding(crate::specs::Promises::folded))]
fn shown(c: u32) -> u32
    ensures { result ≡ folded c }
{
    if c == ascii::CR { ascii::LF } else { c }
}

// Prints the line of a character.
fn print_character(out: &mut impl Write, at: usize, c: u32, width: usize) -> io::Result<()> {
    writeln!(out, "{at} {} {width}", shown(c))
}

// Prints the lines of all characters.
#[tactic(auto, using(window::proofs::Laws::next_on))]
fn print_characters(out: &mut impl Write, s: &[u8]) -> io::Result<()> {
    let mut cur = Cursor::new(s, window::text_start(s));
    loop {
        let c = cur.window[0];
        if c == NO_CHAR {
            return Ok(());
        }
        let at = cur.at;
        cur = cur.next_char();
        print_character(out, at, c, cur.at - at)?;
    }
}

// Prints a text's characters, or where it is ill-formed.
fn print_text(out: &mut impl Write, s: &[u8]) -> io::Result<()> {
    match utf8::check(s) {
        Ok(()) => print_characters(out, s),
        Err(bad) => {
            writeln!(
                out,
                "ill-formed at {} by fault {}",
                bad.at,
                utf8::fault_number(bad.fault)
            )
        }
    }
}

fn main(rt: HostRuntime) -> io::Result<()> {
    let mut input = rt.stdin();
    let mut out = rt.stdout();
    let mut text = [0u8; 4096];
    let n = printing::read_full(&mut input, &mut text)?;
    let mut more = [0u8; 1];
    if printing::read_full(&mut input, &mut more)? == 0 {
        print_text(&mut out, &text[..n])
    } else {
        out.write_all(b"more than 4096 bytes\n")
    }
}
