// The blanks at a line's start, and how they stand to the open indentation levels.

#![tactic(auto)]

ghost use Rattle.std.specs.Prelude.{◌≡◌, ◌≤◌, length};
ghost use Rattle.window.specs.Place.{place_at};
ghost use Rattle.indentation.specs.Blanks.{blanks};
ghost use Rattle.indentation.specs.Promises.{NoteAt, stack, change_at_top};
ghost use Rattle.std.proofs.Common.{rules};
ghost use Rattle.indentation.specs.LevelOrder.{compare_levels, levels_ordered};
ghost use Rattle.indentation.specs.Levels.{most_levels, top_of, pop_from, change_of};

use std::cmp::Ordering;
use token::Ending;

// The most levels that may be open.
pub const MOST_LEVELS: usize = 100;

// The tabs and spaces of an open level, or of a line.
#[derive(Clone, Copy, PartialEq)]
pub struct Level {
    pub tabs: usize,
    pub spaces: usize,
}

// What a line's blanks do to the open levels: nothing, a new one, or so many of them stay open.
#[derive(Clone, Copy)]
pub enum LevelChange {
    Same,
    Indent,
    DedentTo(usize),
}

// A line's blanks: the byte after them, their tabs and spaces.
#[derive(Clone, Copy)]
pub struct Margin {
    pub at: usize,
    pub blanks: Level,
}

// A comment or a newline before a line's first token: its kind and its bytes.
#[derive(Clone, Copy)]
pub struct Note {
    pub kind: u32,
    pub from: usize,
    pub to: usize,
}

// A line's blanks compare with a level whatever a tab is worth: tabs and spaces may not pull in opposite directions.
impl PartialOrd for Level {
    ghost partial_cmp = { compare_levels };

    ghost laws = { levels_ordered (λ x y. Prim.search rules) };

    #[tactic(auto, using(crate::proofs::Compares::by_tabs))]
    fn partial_cmp(&self, other: &Level) -> Option<Ordering> {
        match self.tabs.cmp(&other.tabs) {
            Ordering::Less => (self.spaces <= other.spaces).then_some(Ordering::Less),
            Ordering::Equal => Some(self.spaces.cmp(&other.spaces)),
            Ordering::Greater => (other.spaces <= self.spaces).then_some(Ordering::Greater),
        }
    }
}

// From a line's start on, the blanks of the next line that has a token: blank lines and comment lines are passed over. An error is
// what was counted before a tab that stands after a space, and its place.
pub fn eat_indentation(s: &[u8], at: usize) -> Result<Margin, Margin>
    ensures { result ≡ blanks (place_at s.now at) }
{
    let mut i = at;
    let mut tabs: usize = 0;
    let mut spaces: usize = 0;
    'scan: loop {
        if s.len() <= i {
            tabs = 0;
            spaces = 0;
            break 'scan;
        }
        let b = s[i];
        if b == b' ' {
            i += 1;
            spaces += 1;
            continue 'scan;
        }
        match b {
            b'\t' => {
                // A tab after a space stops the count (code 25).
                if spaces != 0 {
                    return Err(Margin {
                        at: i,
                        blanks: Level { tabs, spaces },
                    });
                }
                i += 1;
                tabs += 1;
            }
            b'#' => {
                i = names::comment_end(s, i);
                tabs = 0;
                spaces = 0;
            }
            b'\x0c' => {
                // A form feed sets both counts to zero.
                i += 1;
                tabs = 0;
                spaces = 0;
            }
            b'\n' | b'\r' => {
                i += 1;
                tabs = 0;
                spaces = 0;
            }
            _ => {
                break 'scan;
            }
        }
    }
    Ok(Margin {
        at: i,
        blanks: Level { tabs, spaces },
    })
}

// The innermost of `depth` levels; below all of them is a line without blanks.
#[tactic(auto, using(crate::proofs::LevelLaws::top_none, crate::proofs::LevelLaws::top_some))]
pub fn top(levels: [Level; MOST_LEVELS], depth: usize) -> Level
    requires { depth ≤ most_levels }
    ensures { result ≡ top_of (stack levels depth) }
{
    if depth == 0 {
        return Level { tabs: 0, spaces: 0 };
    }
    levels[depth - 1]
}

// How a line's blanks stand to the innermost of `depth` levels: DedentTo(depth) where levels are to be popped.
#[tactic(auto, using(crate::proofs::LevelLaws::tops))]
pub fn change_at_top(top: Level, depth: usize, blanks: Level) -> Result<LevelChange, Ending>
    ensures { result ≡ change_at_top top depth blanks.tabs blanks.spaces }
{
    match blanks.partial_cmp(&top) {
        Some(Ordering::Less) => Ok(LevelChange::DedentTo(depth)),
        Some(Ordering::Equal) => Ok(LevelChange::Same),
        Some(Ordering::Greater) => {
            if depth == MOST_LEVELS {
                return Err(Ending::TooDeep);
            }
            Ok(LevelChange::Indent)
        }
        None => Err(Ending::TabError),
    }
}

// Pops the levels that a line's blanks are less than, comparing anew each time: how many stay open.
pub fn popped(
    levels: [Level; MOST_LEVELS],
    depth: usize,
    blanks: Level,
) -> Result<LevelChange, Ending>
    requires { depth ≤ most_levels }
    ensures { result ≡ pop_from (stack levels depth) blanks.tabs blanks.spaces }
{
    for d in (0..depth).rev() {
        match blanks.partial_cmp(&levels[d]) {
            Some(Ordering::Less) => {}
            Some(Ordering::Equal) => {
                return Ok(LevelChange::DedentTo(d + 1));
            }
            Some(Ordering::Greater) => {
                return Err(Ending::IndentationError);
            }
            None => {
                return Err(Ending::TabError);
            }
        }
    }
    if blanks.tabs == 0 && blanks.spaces == 0 {
        return Ok(LevelChange::DedentTo(0));
    }
    Err(Ending::IndentationError)
}

// How a line's blanks stand to the open levels, `top` being the innermost. The others are looked at only where levels are popped:
// to pass them on costs a copy.
pub fn handle_indentations(
    levels: [Level; MOST_LEVELS],
    top: Level,
    depth: usize,
    blanks: Level,
) -> Result<LevelChange, Ending>
    requires { (depth ≤ most_levels) × (top ≡ top_of (stack levels depth)) }
    ensures { result ≡ change_of (stack levels depth) blanks.tabs blanks.spaces }
{
    match change_at_top(top, depth, blanks)? {
        LevelChange::DedentTo(_) => popped(levels, depth, blanks),
        change => Ok(change),
    }
}

// The first comment or newline from a byte of a line's start on.
pub fn next_note(s: &[u8], at: usize) -> Option<Note>
    requires { at ≤ length s.now }
    ensures { NoteAt s.now at result }
{
    let mut i = at;
    loop {
        if s.len() <= i {
            return None;
        }
        match s[i] {
            b' ' | b'\t' | b'\x0c' => {
                i += 1;
            }
            b'#' => {
                return Some(Note {
                    kind: token::COMMENT,
                    from: i,
                    to: names::comment_end(s, i),
                });
            }
            b'\n' => {
                return Some(Note {
                    kind: token::NON_LOGICAL_NEWLINE,
                    from: i,
                    to: i + 1,
                });
            }
            b'\r' => {
                return Some(Note {
                    kind: token::NON_LOGICAL_NEWLINE,
                    from: i,
                    to: window::char_end(s, i),
                });
            }
            _ => {
                return None;
            }
        }
    }
}
