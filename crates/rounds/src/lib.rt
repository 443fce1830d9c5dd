// A line's start: the blanks are counted and compared, and an Indent or Dedents are pending. And what comes next in a line.

#![tactic(auto)]

ghost use Rattle.rounds.specs.Promises.{Below, StartedBelow, Inside, FoundFrom};

use indentation::{Level, LevelChange, MOST_LEVELS, Margin};
use lexer::{Seen, Step};
use token::Ending;

// What a line's start leaves pending, one Indent or so many Dedents; where its first item begins, after which blanks; the depth it leads to.
// Kept: `indents`, 0 or 1, is a number, since the code and its clauses add it to the Dedents.
#[derive(Clone, Copy)]
pub struct Pending {
    pub indents: usize,
    pub dedents: usize,
    pub from: usize,
    pub blanks: Level,
    pub depth: usize,
}

// A line's start at a byte, where so many levels are open, `top` being the innermost; an error has its place.
pub fn start_line(
    s: &[u8],
    levels: [Level; MOST_LEVELS],
    top: Level,
    depth: usize,
    at: usize,
) -> Result<Pending, (Ending, usize)>
    requires { Below s.now levels top depth at }
    ensures { StartedBelow s.now levels depth at result }
{
    // Kept: each error in its arm, since `map_err` and `?` in its place take 2 to 3 % more time.
    let Margin { at: from, blanks } = match indentation::eat_indentation(s, at) {
        Ok(m) => m,
        Err(bad) => {
            return Err((Ending::TabsAfterSpaces, bad.at));
        }
    };
    let change = match indentation::handle_indentations(levels, top, depth, blanks) {
        Ok(c) => c,
        Err(w) => {
            return Err((w, from));
        }
    };
    let (indents, dedents, depth) = match change {
        LevelChange::Same => (0, 0, depth),
        LevelChange::Indent => (1, 0, depth + 1),
        LevelChange::DedentTo(d) => (0, depth - d, d),
    };
    Ok(Pending {
        indents,
        dedents,
        from,
        blanks,
        depth,
    })
}

// What comes next in a line: a token, with its kind, its start and end and the brackets open after it; the line's Newline; the text's
// end; or an error, with its place.
// Kept: the ways on and the error are one enum, since no caller passes the error on as it is: each adds its count or its lines.
#[derive(Clone, Copy)]
pub enum NextToken {
    Tok(u32, usize, usize, usize),
    Newline(usize, usize),
    End(usize),
    Error(Ending, usize),
}

// What comes next, how many line ends stand before it, and how many end in it.
#[derive(Clone, Copy)]
pub struct Found {
    pub token: NextToken,
    pub before: usize,
    pub within: usize,
}

// What comes next in a line from a place within so many brackets, past the gaps and the notes that are not listed. Most steps are told
// by a glance, and are in their line; in the others line ends are counted.
pub fn next_token(s: &[u8], full: bool, at: usize, nest: usize) -> Found
    requires { Inside s.now at nest }
    ensures { FoundFrom full s.now at nest result }
{
    let mut i = at;
    let mut n: usize = 0;
    loop {
        match lexer::glance(s, i, nest) {
            Seen::Blank => {
                i = names::blank_end(s, i);
                continue;
            }
            Seen::Newline => {
                return Found {
                    token: NextToken::Newline(i, i + 1),
                    before: n,
                    within: 1,
                };
            }
            Seen::Token(q) => {
                let w = lexer::glanced(s, i, q);
                return Found {
                    token: NextToken::Tok(w.kind, i, w.end, lexer::nest_after(nest, q)),
                    before: n,
                    within: 0,
                };
            }
            Seen::Nothing => {}
        }
        match lexer::next_step(s, i, nest) {
            Step::Gap(e) => {
                n += lines::line_ends(s, i, e);
                i = e;
            }
            Step::Tok(k, e, m) => {
                let within = lines::line_ends(s, i, e);
                if lexer::is_listed(full, k) {
                    return Found {
                        token: NextToken::Tok(k, i, e, m),
                        before: n,
                        within,
                    };
                }
                n += within;
                i = e;
            }
            Step::Newline(e) => {
                return Found {
                    token: NextToken::Newline(i, e),
                    before: n,
                    within: lines::line_ends(s, i, e),
                };
            }
            Step::Error(w, p) => {
                return Found {
                    token: NextToken::Error(w, p),
                    before: n,
                    within: 0,
                };
            }
            Step::End => {
                return Found {
                    token: NextToken::End(i),
                    before: n,
                    within: 0,
                };
            }
        }
    }
}
