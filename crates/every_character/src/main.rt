// Prints each class of characters as the compiled code has it: a heading, then its ranges, one to a
// line. The walk goes through all 1,112,064 characters, and the file `stdout` is made from tables/.

#![tactic(auto)]

ghost use Rattle.std.specs.Prelude.{◌≡◌, ◌≤◌, ◌<◌};
ghost use Rattle.utf8.specs.Chars.{no_char};
ghost use Rattle.every_character.specs.Promises.{is_in, successor, run_end};

use std::io;
use std::io::Write;
use utf8::NO_CHAR;

#[derive(Clone, Copy)]
enum Class {
    Starts,
    Continuations,
    Emoji,
}

impl Class {
    // Whether the class has a character.
    fn has(self, c: u32) -> bool
        ensures { is_in self c ≡ result }
    {
        match self {
            Class::Starts => classes::is_identifier_start(c),
            Class::Continuations => classes::is_identifier_continuation(c),
            Class::Emoji => classes::is_emoji(c),
        }
    }
}

// The next character: surrogates are none.
#[tactic(auto, using(choice::proofs::Laws::tests), unfolding(crate::specs::Promises::successor))]
fn next(c: u32) -> u32
    requires { c < no_char }
    ensures { result ≡ successor c }
{
    if c == 0xd7ff { 0xe000 } else { c + 1 }
}

// The first character from `from` on that the class does not have.
#[tactic(auto, using(crate::proofs::Laws::walk))]
fn run_end(class: Class, from: u32) -> u32
    requires { from ≤ no_char }
    ensures { result ≡ run_end (is_in class) from }
{
    let mut c = from;
    while c < NO_CHAR && class.has(c) {
        c = next(c);
    }
    c
}

fn print_range(out: &mut impl Write, low: u32, high: u32) -> io::Result<()> {
    writeln!(out, "{low} {high}")
}

// Prints the ranges of a class.
// Kept: `run_end`'s clause says where a run ends; a walk by `find` over `char`s had no such clause, and its measure stayed open.
#[tactic(auto, using(crate::proofs::Laws::next_within, crate::proofs::Laws::end_above))]
fn print_class(out: &mut impl Write, class: Class) -> io::Result<()> {
    let mut c: u32 = 0;
    while c < NO_CHAR {
        if class.has(c) {
            let end = run_end(class, next(c));
            print_range(out, c, end - 1)?;
            c = end;
        } else {
            c = next(c);
        }
    }
    Ok(())
}

fn main(rt: HostRuntime) -> io::Result<()> {
    let mut out = rt.stdout();
    out.write_all(b"starts\n")?;
    print_class(&mut out, Class::Starts)?;
    out.write_all(b"continuations\n")?;
    print_class(&mut out, Class::Continuations)?;
    out.write_all(b"emoji\n")?;
    print_class(&mut out, Class::Emoji)
}
