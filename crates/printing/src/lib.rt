// Printing what a reading says: a line for each record (kind, start, end, line), then a line for the answer (code, count, place, detail).
// The contracts say which bytes a writer is handed, where it says what it holds, and `print_reading` what a reading leaves in the row,
// also where a write fails. Each function returns the first error of a read or a write.

#![tactic(auto)]

ghost use Rattle.std.specs.Prelude.{◌≡◌, ◌≤◌, length, IfOk, OnOk};
ghost use Rattle.std.specs.Io.KnownBytes.{Appends};
ghost use Rattle.reading.specs.Answers.{read_answer, read_row};
ghost use Rattle.printing.specs.Promises.{printed, record_line, answer_line, lines};

use answers::{Answer, Refusal};
use std::io;
use std::io::{Read, Write};
use token::Record;

// The most bytes of an input that are read as a text.
const MOST_BYTES: usize = 16384;

// The numbers of a row for 4,000 records.
pub const ROW: usize = 4000 * records::STRIDE;

// Reads until `buf` is full or the input ends, and returns how many bytes it put at the start of `buf`.
// Kept: the library's `read_exact` does not tell how many bytes came before the end, and `read_to_end` wants a vector, that is, a heap.
pub fn read_full(input: &mut impl Read, buf: &mut [u8]) -> io::Result<usize>
    ensures { IfOk result (λ n. n ≤ length buf.new) }
{
    let mut done = 0;
    while done < buf.len() {
        let n = input.read(&mut buf[done..])?;
        if n == 0 {
            break;
        }
        done += n;
    }
    Ok(done)
}

// Prints a record's line. Kept: `Display` would stand in the crates of these types, which print nothing.
fn print_record<W: Write>(out: &mut W, r: Record) -> io::Result<()>
    ensures { OnOk result (Appends (W.contents out.old) (W.contents out.new) (record_line r)) }
{
    writeln!(out, "{} {} {} {}", r.kind, r.start, r.end, r.line)
}

// Prints an answer's line.
pub fn print_answer<W: Write>(out: &mut W, a: Answer) -> io::Result<()>
    ensures { OnOk result (Appends (W.contents out.old) (W.contents out.new) (answer_line a)) }
{
    writeln!(out, "{} {} {} {}", a.code, a.count, a.place, a.detail)
}

// How many records are printed beside an answer, of a row that has room for so many.
#[tactic(auto, using(choice::proofs::Laws::tests), unfolding(crate::specs::Promises::printed))]
fn printed(room: usize, a: Answer) -> usize
    ensures upper_bound { result ≤ room }
    ensures value { result ≡ printed room a }
{
    if a.code == answers::NO_ROOM {
        0
    } else {
        room.min(a.count as usize)
    }
}

// Prints the records of a row and the answer.
pub fn print_all<W: Write>(out: &mut W, row: &[u32], a: Answer) -> io::Result<()>
    ensures { OnOk result (Appends (W.contents out.old) (W.contents out.new) (lines row.now a)) }
{
    for i in 0..printed(records::room_of(row.len()), a) {
        print_record(out, records::record_at(row, i))?;
    }
    print_answer(out, a)
}

// Reads a text into a row and prints the records and the answer.
pub fn print_reading<W: Write>(
    out: &mut W,
    s: &[u8],
    mode: u32,
    start: u32,
    row: &mut [u32],
) -> io::Result<()>
    ensures row { row.new ≡ read_row s.now mode start row.old }
    ensures bytes { OnOk result (Appends (W.contents out.old) (W.contents out.new)
        (lines (read_row s.now mode start row.old) (read_answer s.now mode start row.old))) }
{
    let a = reading::read(s, mode, start, row);
    print_all(out, row, a)
}

// Reads an input, up to 16,384 bytes, as a module at start 0 and prints it; a longer one is refused as too long.
pub fn print_input(input: &mut impl Read, out: &mut impl Write) -> io::Result<()> {
    let mut text = [0u8; 65536];
    let n = read_full(input, &mut text)?;
    if n > MOST_BYTES {
        return print_answer(out, Refusal::TooLong.into());
    }
    let mut row = [0; ROW];
    print_reading(out, &text[..n], 0, 0, &mut row)
}
