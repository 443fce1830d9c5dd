// What every call answers, and each way to make it.

#![tactic(auto)]

ghost use Rattle.std.specs.Prelude.{◌≡◌, ◌<◌};
ghost use Rattle.records.specs.Limits.{places};
ghost use Rattle.answers.specs.Answers.{answer, answer_of, numbers_of, is_above};
ghost use Rattle.answers.specs.Promises.{Fits};

use utf8::Fault;

// Its layout is C's, for the doors.
#[repr(C)]
#[derive(Clone, Copy, Debug, PartialEq, Eq)]
pub struct Answer {
    pub code: u32,
    pub count: u32,
    pub place: u32,
    pub detail: u32,
}

// So many numbers.
pub const LENGTH: usize = 4;

// The codes of refusals; 0 refuses nothing. Kept: some refusals hold a place, a fault or a need, so that their ways have no discriminants.
pub const TOO_LONG: u32 = 1;

pub const UNKNOWN_MODE: u32 = 2;

pub const ILL_FORMED: u32 = 3;

pub const NO_ROOM: u32 = 4;

pub const WRONG_EDIT: u32 = 5;

pub const UNSOUND: u32 = 6;

pub const TOO_MANY_OPEN: u32 = 34;

// An answer by its numbers.
pub fn made(code: u32, count: u32, place: u32, detail: u32) -> Answer
    ensures { result ≡ answer code count place detail }
{
    Answer {
        code,
        count,
        place,
        detail,
    }
}

// Its numbers in a row.
impl From<Answer> for [u32; LENGTH] {
    ghost from_gives = { λ a numbers. numbers ≡ numbers_of a };

    fn from(a: Answer) -> [u32; LENGTH] {
        [a.code, a.count, a.place, a.detail]
    }
}

// Why a call does nothing: codes 1 to 6 in their order.
#[derive(Clone, Copy, Debug, PartialEq, Eq)]
pub enum Refusal {
    TooLong,
    UnknownMode,
    // The first ill-formed sequence is at this place, and this is wrong there.
    IllFormed { place: u32, fault: Fault },
    // So many records would be needed.
    NoRoom { need: u32 },
    WrongEdit,
    Unsound,
}

impl From<Refusal> for Answer {
    ghost from_gives = { λ r a. a ≡ answer_of r };

    fn from(r: Refusal) -> Answer {
        match r {
            Refusal::TooLong => made(TOO_LONG, 0, 0, 0),
            Refusal::UnknownMode => made(UNKNOWN_MODE, 0, 0, 0),
            Refusal::IllFormed { place, fault } => {
                made(ILL_FORMED, 0, place, utf8::fault_number(fault))
            }
            Refusal::NoRoom { need } => made(NO_ROOM, need, 0, 0),
            Refusal::WrongEdit => made(WRONG_EDIT, 0, 0, 0),
            Refusal::Unsound => made(UNSOUND, 0, 0, 0),
        }
    }
}

// Whether code 5 refuses an old count: it is above what is lent holds.
// Kept: the comparison has the name of the definition by which a re-reading and an audit both refuse.
pub fn is_above(space: usize, old: usize) -> bool
    ensures { is_above space old ≡ result }
{
    space < old
}

// A reading's ending, with the number of its records.
pub fn ended(code: u32, count: usize, place: usize, detail: u32) -> Answer
    requires { Fits count place }
    ensures { result ≡ answer code count place detail }
{
    made(code, count as u32, place as u32, detail)
}

// A place that was looked for, with the code that says what was found there.
pub fn found(code: u32, place: usize) -> Answer
    requires { place < places }
    ensures { result ≡ answer code 0 place 0 }
{
    made(code, 0, place as u32, 0)
}
