// The bracket audit: the first closing bracket in a list that does not close the latest open one, of its own kind.

#![tactic(auto)]

ghost use Rattle.std.specs.Prelude.{◌≡◌};
ghost use Rattle.audit.specs.Audits.{audit_of};

use answers::{Answer, Refusal};
use records::Slot;

// So many brackets may be open.
pub const MOST_OPEN: usize = 200;

// Audits the first `old` records of what is lent, as answered by a reading or altered since: the place is an index, or the old count.
// A count is a 32-bit number, as in every answer, so that the place is one too. The kinds that are open stand in an array, the latest last.
pub fn audit<T: Slot>(row: &[T], old: u32) -> Answer
    ensures { result ≡ audit_of (T.numbers row.now) old }
{
    let n = old as usize;
    if answers::is_above(T::room(row), n) {
        return Refusal::WrongEdit.into();
    }
    // Kept: an array of 200 kinds by value with its count beside it (document 02, item 3); there is no heap.
    let mut openers = [0; MOST_OPEN];
    let mut depth = 0;
    for i in 0..n {
        let kind = T::get(row, i).kind;
        if token::is_opener(kind) {
            if depth == MOST_OPEN {
                return answers::found(answers::TOO_MANY_OPEN, i);
            }
            openers[depth] = kind;
            depth += 1;
        } else if token::is_closer(kind) {
            if depth == 0 || openers[depth - 1] != token::opener_of(kind) {
                return answers::found(0, i);
            }
            depth -= 1;
        }
    }
    answers::found(0, n)
}
