// A record's shape: its numbers in a row, how many records a row holds, one record written and looked up; what a lent slice is made of.
// Limits of texts and readings.

#![tactic(auto)]

ghost use Rattle.std.specs.Prelude.{ℕ, List, ◌≡◌, ◌+◌, ◌<◌, ◌≤◌, length};
ghost use Rattle.token.specs.Codes.{kind_of};
ghost use Rattle.records.specs.Records.{rec, room_of, room, rec_at, set_rec, flat};
ghost use Rattle.records.specs.Promises.{blank, NumbersOk, PutOk};
ghost use Rattle.records.specs.Rooms.{flat_room};
ghost use Rattle.std.proofs.Common.{rules};

use token::{Record, Token};

// Numbers of a row per record.
pub const STRIDE: usize = 4;

// The longest text, in bytes; the most records of a reading; places and counts are below the last.
pub const MOST_BYTES: usize = 16777216;

pub const MOST_RECORDS: usize = 2 * MOST_BYTES + 1;

pub const PLACES: usize = 4294967296;

// How many records so many numbers hold.
pub fn room_of(len: usize) -> usize
    ensures { result ≡ room_of len }
{
    len / STRIDE
}

// A record of zeros: what stands past a list's end.
pub fn blank() -> Record
    ensures { result ≡ blank }
{
    Record {
        kind: 0,
        start: 0,
        end: 0,
        line: 0,
    }
}

// A record, with the start added to both places.
pub fn moved(start: usize, kind: u32, from: usize, to: usize, line: usize) -> Record
    requires { NumbersOk start from to line }
    ensures { result ≡ rec kind (start + from) (start + to) line }
{
    Record {
        kind,
        start: (start + from) as u32,
        end: (start + to) as u32,
        line: line as u32,
    }
}

// What a lent slice is made of: numbers, four a record, or records. Either is looked at as a row of numbers.
pub trait Slot: Copy {
    // The row that such a slice shows.
    ghost numbers: { List Self → List ℕ };

    // How many records there is room for.
    fn room(slots: &[Self]) -> usize
        ensures { result ≡ room (numbers slots.now) };

    // The record at an index.
    fn get(slots: &[Self], i: usize) -> Record
        requires { i < room (numbers slots.now) }
        ensures { result ≡ rec_at (numbers slots.now) i };

    // A record, written at its index.
    fn set(slots: &mut [Self], i: usize, r: Record)
        requires { i < room (numbers slots.old) }
        ensures { numbers slots.new ≡ set_rec (numbers slots.old) i r };

    // So a count of records is one of slots.
    ghost few: { (slots : List Self) → room (numbers slots) ≤ length slots };
}

// A row of numbers shows itself.
impl Slot for u32 {
    ghost numbers = { λ row. row };

    ghost few = { λ row. Prim.search rules };

    fn room(row: &[u32]) -> usize {
        room_of(row.len())
    }

    #[tactic(auto, unfolding(crate::specs::Records::rec_at))]
    fn get(row: &[u32], i: usize) -> Record {
        let at = STRIDE * i;
        Record {
            kind: row[at],
            start: row[at + 1],
            end: row[at + 2],
            line: row[at + 3],
        }
    }

    #[tactic(auto, unfolding(crate::specs::Records::set_rec))]
    fn set(row: &mut [u32], i: usize, r: Record) {
        let at = STRIDE * i;
        row[at] = r.kind;
        row[at + 1] = r.start;
        row[at + 2] = r.end;
        row[at + 3] = r.line;
    }
}

// A list of records shows the numbers of each.
impl Slot for Record {
    ghost numbers = { flat };

    ghost few = { λ list. Prim.search (rules, flat_room) };

    #[tactic(auto, using(crate::specs::Rooms::flat_room))]
    fn room(list: &[Record]) -> usize {
        list.len()
    }

    #[tactic(auto, using(crate::specs::Rooms::flat_room, crate::proofs::Flats::flat_rec))]
    fn get(list: &[Record], i: usize) -> Record {
        list[i]
    }

    #[tactic(auto, using(crate::specs::Rooms::flat_room, crate::proofs::Flats::flat_set))]
    fn set(list: &mut [Record], i: usize, r: Record) {
        list[i] = r;
    }
}

// One record, written at its index with the start added.
pub fn put<T: Slot>(
    row: &mut [T],
    start: usize,
    i: usize,
    kind: u32,
    from: usize,
    to: usize,
    line: usize,
)
    requires { PutOk (room (T.numbers row.old)) start i from to line }
    ensures { T.numbers row.new ≡ set_rec (T.numbers row.old) i (rec kind (start + from) (start + to) line) }
{
    let r = moved(start, kind, from, to, line);
    T::set(row, i, r);
}

// A token's record, written likewise.
pub fn put_token<T: Slot>(
    row: &mut [T],
    start: usize,
    i: usize,
    t: Token,
    from: usize,
    to: usize,
    line: usize,
)
    requires { PutOk (room (T.numbers row.old)) start i from to line }
    ensures { T.numbers row.new ≡ set_rec (T.numbers row.old) i (rec (kind_of t) (start + from) (start + to) line) }
{
    put(row, start, i, token::kind_of(t), from, to, line);
}

// The record at an index.
pub fn record_at<T: Slot>(row: &[T], i: usize) -> Record
    requires { i < room (T.numbers row.now) }
    ensures { result ≡ rec_at (T.numbers row.now) i }
{
    T::get(row, i)
}
