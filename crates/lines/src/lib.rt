// The lines of a text: line ends are counted where they can be, from a place whose line is known.

#![tactic(auto)]

ghost use Rattle.std.specs.Prelude.{◌≡◌, ◌+◌, ◌<◌, length, get_or};
ghost use Rattle.lines.specs.Lines.{line_at};
ghost use Rattle.lines.specs.Promises.{Ending, Part, Ends, Counts, block};

// So many bytes are counted at once.
const BLOCK: usize = 32;

// 1 if a byte that stands before another is the last of a line end, else 0; without a branch.
fn ending(b: u8, c: u8) -> u8
    ensures { Ending b c result }
{
    let lone = (b == b'\r') & (c != b'\n');
    ((b == b'\n') | lone) as u8
}

// How many line ends end in the block from `at`. The loop has no branch and a sum of one byte, so that it runs on many bytes at once.
fn block_ends(s: &[u8], at: usize) -> u8
    requires { at + block < length s.now }
    ensures { Ends s.now at (at + block) result }
{
    let mut n: u8 = 0;
    for k in 0..BLOCK {
        n += ending(s[at + k], s[at + k + 1]);
    }
    n
}

// The same of one byte: most are above CR, and are told by one test.
#[tactic(auto, using(crate::proofs::Laws::ends))]
fn ends_at(s: &[u8], at: usize) -> usize
    requires { at < length s.now }
    ensures { Ending (get_or s.now at 0) (get_or s.now (at + 1) 0) result }
{
    let b = s[at];
    if b'\r' < b {
        return 0;
    }
    if b == b'\n' {
        return 1;
    }
    if b != b'\r' {
        return 0;
    }
    if at + 1 == s.len() {
        return 1;
    }
    ending(b, s[at + 1]) as usize
}

// How many line ends end behind a byte and at or before another.
// Kept: blocks are passed by `while`, since the bytes that are left over go on where the last block ends.
pub fn line_ends(s: &[u8], from: usize, to: usize) -> usize
    requires { Part s.now from to }
    ensures { Ends s.now from to result }
{
    let mut i = from;
    let mut n: usize = 0;
    while BLOCK < to - i {
        n += block_ends(s, i) as usize;
        i += BLOCK;
    }
    for k in i..to {
        n += ends_at(s, k);
    }
    n
}

// The line of any byte; behind the text's end all line ends count.
pub fn line_at(s: &[u8], at: usize) -> usize
    ensures { result ≡ line_at s.now at }
{
    if s.len() < at {
        return line_ends(s, 0, s.len());
    }
    line_ends(s, 0, at)
}

// The line of a byte, where that of another is known: most often one at or before it.
pub fn line_from(s: &[u8], from: usize, line: usize, to: usize) -> usize
    requires { Counts s.now from line to }
    ensures { result ≡ line_at s.now to }
{
    if to < from {
        return line_at(s, to);
    }
    line + line_ends(s, from, to)
}
