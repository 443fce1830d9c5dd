// Document 01, "Checked by eye, then by proof": the examples that are run and not proved, and the recipe that started this. Of each it
// prints the records and the answer; of the levels the answer alone. Standard input is the recipe, and the levels behind it;
// tools/make-spoken makes it and what is to be printed.

#![tactic(auto)]

use std::io;
use std::io::{Read, Write};

// The bytes of examples/recipes/gold_leaf.py.
const RECIPE: usize = 356;

// So many bytes behind it open 100 levels; all of them open 101.
const HUNDRED: usize = 5251;

// Prints a heading, then the reading of a text as a module at a start.
fn print_example(
    out: &mut impl Write,
    heading: &[u8],
    text: &[u8],
    start: u32,
    row: &mut [u32],
) -> io::Result<()> {
    out.write_all(heading)?;
    printing::print_reading(out, text, 0, start, row)
}

fn print_examples(out: &mut impl Write, row: &mut [u32]) -> io::Result<()> {
    print_example(out, b"a name:\n", b"match: int", 0, row)?;
    print_example(out, b"a keyword:\n", b"match x: y", 0, row)?;
    print_example(
        out,
        b"a surrogate after a letter:\n",
        b"a\xed\xa0\x80",
        0,
        row,
    )?;
    print_example(
        out,
        b"no text at the furthest start:\n",
        b"",
        4294967295,
        row,
    )?;
    print_example(out, b"one byte there:\n", b"x", 4294967295, row)
}

// A comment stands at the left margin, inside a block and before the decode. A reader that lets it end the block puts a Dedent (kind 2)
// there, and gold goes brown: its only Dedent is the last record.
fn print_recipe(input: &mut impl Read, out: &mut impl Write, row: &mut [u32]) -> io::Result<()> {
    let mut recipe = [0u8; RECIPE];
    printing::read_full(input, &mut recipe)?;
    print_example(out, b"a comment at the margin:\n", &recipe, 0, row)
}

// Prints the answer to a text.
fn print_levels(out: &mut impl Write, text: &[u8], row: &mut [u32]) -> io::Result<()> {
    printing::print_answer(out, reading::read(text, 0, 0, row))
}

fn main(rt: HostRuntime) -> io::Result<()> {
    let mut input = rt.stdin();
    let mut out = rt.stdout();
    let mut text = [0u8; 65536];
    let mut row = [0; printing::ROW];
    print_examples(&mut out, &mut row)?;
    print_recipe(&mut input, &mut out, &mut row)?;
    let n = printing::read_full(&mut input, &mut text)?;
    let (hundred, more) = (&text[..HUNDRED], &text[..n]);
    out.write_all(b"100 levels, and 101:\n")?;
    print_levels(&mut out, hundred, &mut row)?;
    print_levels(&mut out, more, &mut row)
}
