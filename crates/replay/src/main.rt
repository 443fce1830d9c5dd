// Asks the reader every question of the fixed list of the original's answers (standard input; its form stands in
// oracle/answers/src/bin/make-list.rs) and prints how many answers differ, and the numbers of the first ten that do, from 0.

#![tactic(auto)]

ghost use Rattle.std.specs.Prelude.{◌≡◌, length, IfOk, OnErr};
ghost use Rattle.replay.specs.Promises.{number_at, due_at, is_held, answer_in, agreed, fresh, Asked, Framed};

use answers::Answer;
use std::io;
use std::io::{Read, Write};

// What a row holds before a reading, to see that the rest of it stays as it was.
const FILLED: u32 = 0xa5a5a5a5;

// A record's bytes in the list: four a number.
const RECORD_BYTES: usize = 4 * records::STRIDE;

// What comes of a frame: the answers agree, or differ; the list is cut short, or it is over. Neither end is an error that is passed on.
#[derive(Clone, Copy)]
enum Outcome {
    Same,
    Different,
    Cut,
    Over,
}

// The most frames that are read: the loop ends even if the list does not.
const MOST_FRAMES: u32 = 1000000;

// The number of the four bytes from a place on, the lowest first; 0 where they are not all there.
#[tactic(auto, using(crate::proofs::Laws::number_none, crate::proofs::Laws::number_some))]
fn number(bytes: &[u8], at: usize) -> u32
    ensures { result ≡ number_at bytes.now at }
{
    match bytes.get(at..) {
        Some([a, b, c, d, ..]) => u32::from_le_bytes([*a, *b, *c, *d]),
        _ => 0,
    }
}

// The number that a row must hold at an index, by the records' bytes.
#[tactic(auto, using(choice::proofs::Laws::tests), unfolding(crate::specs::Promises::due_at))]
fn due(records: &[u8], i: usize) -> u32
    ensures { result ≡ due_at records.now i }
{
    if i < records.len() / 4 {
        number(records, 4 * i)
    } else {
        FILLED
    }
}

// Whether a row holds the numbers of these bytes, four bytes each, and nothing new behind them.
#[tactic(auto, using(crate::proofs::Laws::walk))]
fn holds(records: &[u8], row: &[u32]) -> bool
    ensures { is_held records.now row.now ≡ result }
{
    if row.len() < records.len() / 4 {
        return false;
    }
    for (i, n) in row.iter().enumerate() {
        if *n != due(records, i) {
            return false;
        }
    }
    true
}

// The answer in a frame's head.
#[tactic(auto, unfolding(crate::specs::Promises::answer_in))]
fn answer_in(head: &[u8]) -> Answer
    ensures { result ≡ answer_in head.now }
{
    answers::made(
        number(head, 20),
        number(head, 24),
        number(head, 28),
        number(head, 32),
    )
}

// Whether the reader answers as a frame says: its head, its text, its records, and a row of its length, which is filled first.
#[tactic(auto, using(crate::proofs::Laws::agreed_same, crate::proofs::Laws::agreed_not))]
fn agrees(head: &[u8], text: &[u8], records: &[u8], row: &mut [u32]) -> bool
    ensures { agreed head.now text.now records.now (fresh (length row.old)) ≡ result }
{
    row.fill(FILLED);
    let a = reading::read(text, number(head, 0), number(head, 4), row);
    a == answer_in(head) && holds(records, row)
}

// Reads a frame's text and its records and asks the reader. Whether they come whole is not ours to say; where a read fails, the row stays
// as it was.
#[tactic(auto, using(crate::proofs::Laws::verdict_same, crate::proofs::Laws::verdict_other))]
fn ask(
    input: &mut impl Read,
    head: &[u8],
    text: &mut [u8],
    records: &mut [u8],
    row: &mut [u32],
) -> io::Result<Outcome>
    ensures ok { IfOk result (λ what. Asked head.now text.new records.new (length row.old) what) }
    ensures err { OnErr result (row.new ≡ row.old) }
{
    if printing::read_full(input, text)? < text.len() {
        return Ok(Outcome::Cut);
    }
    if printing::read_full(input, records)? < records.len() {
        return Ok(Outcome::Cut);
    }
    if agrees(head, text, records, row) {
        Ok(Outcome::Same)
    } else {
        Ok(Outcome::Different)
    }
}

// Reads the rest of a frame, behind its head, into these buffers and asks the reader. What a buffer has no room for is left out; where
// a read fails, the row stays as it was.
// Kept: slices, and no method of `Buffers`: where part of an array in a field is lent, the check knows nothing of the field afterwards.
fn rest(
    input: &mut impl Read,
    head: &[u8],
    text: &mut [u8],
    records: &mut [u8],
    row: &mut [u32],
) -> io::Result<Outcome>
    ensures ok { IfOk result (λ what. Framed head.now text.new records.new (length row.old) what) }
    ensures err { OnErr result (row.new ≡ row.old) }
{
    let bytes = (number(head, 12) as usize).min(text.len());
    let written = (number(head, 16) as usize).min(records.len() / RECORD_BYTES) * RECORD_BYTES;
    let room = (number(head, 8) as usize).min(row.len());
    ask(
        input,
        head,
        &mut text[..bytes],
        &mut records[..written],
        &mut row[..room],
    )
}

// What a frame is read into: its head, its text, its records, and a row as long as the list's longest, which the reader fills.
#[derive(Drop)]
struct Buffers {
    head: [u8; 36],
    text: [u8; 65536],
    records: [u8; 65536],
    row: [u32; 4096],
}

impl Buffers {
    // Reads a frame and asks the reader; where a read fails, the row stays as it was.
    fn frame(&mut self, input: &mut impl Read) -> io::Result<Outcome>
        ensures ok { IfOk result (λ what. Framed self.new.head self.new.text self.new.records (length self.old.row) what) }
        ensures err { OnErr result (self.new.row ≡ self.old.row) }
    {
        let got = printing::read_full(input, &mut self.head)?;
        if got == 0 {
            return Ok(Outcome::Over);
        }
        if got < self.head.len() {
            return Ok(Outcome::Cut);
        }
        rest(
            input,
            &self.head,
            &mut self.text,
            &mut self.records,
            &mut self.row,
        )
    }
}

// Prints the number of a frame that differs, if it is one of the first ten.
fn print_different(out: &mut impl Write, frame: u32, before: u32) -> io::Result<()> {
    if before < 10 {
        writeln!(out, "different: {frame}")?;
    }
    Ok(())
}

// Prints the last line; where the list is cut short, one that says so before it.
fn print_totals(
    out: &mut impl Write,
    end: Outcome,
    frames: u32,
    differences: u32,
) -> io::Result<()> {
    if matches!(end, Outcome::Cut) {
        out.write_all(b"the list is cut short\n")?;
    }
    writeln!(out, "{frames} texts, {differences} differences")
}

// Goes through all frames.
fn replay(input: &mut impl Read, out: &mut impl Write, buffers: &mut Buffers) -> io::Result<()> {
    let mut differences: u32 = 0;
    for frames in 0..MOST_FRAMES {
        match buffers.frame(input)? {
            Outcome::Same => {}
            Outcome::Different => {
                print_different(out, frames, differences)?;
                differences += 1;
            }
            end => return print_totals(out, end, frames, differences),
        }
    }
    print_totals(out, Outcome::Over, MOST_FRAMES, differences)
}

fn main(rt: HostRuntime) -> io::Result<()> {
    let mut buffers = Buffers {
        head: [0; 36],
        text: [0; 65536],
        records: [0; 65536],
        row: [0; 4096],
    };
    replay(&mut rt.stdin(), &mut rt.stdout(), &mut buffers)
}
