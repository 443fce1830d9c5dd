// Re-reading after an edit, and the bracket audit, run on small cases. Each prints a title; the records of a list that was not refused
// (kind, start, end, line); and the answer (code, count, place, detail). What a case must print, and why, stands beside it.

#![tactic(auto)]

use printing::{print_all, print_answer};
use std::io;
use std::io::Write;

// Lists the old text, and reads the new one again, of which the first a bytes are the old one's.
fn edit(
    out: &mut impl Write,
    title: &[u8],
    old: &[u8],
    new: &[u8],
    mode: u32,
    a: usize,
) -> io::Result<()> {
    out.write_all(title)?;
    let mut row = [0u32; 60];
    let listed = reading::read(old, mode, 0, &mut row);
    let r = rereading::reread(new, mode, &mut row, listed.count as usize, a);
    print_all(out, &row, r)
}

// Document 01's own case: the first kind is altered, and stays, for its record is kept. 4 0 1 0 and 0 1 2 0 are kept as given;
// 3 2 4 1 and 0 4 5 1 are read; the text ends at 5: 0 4 5 0.
fn altered(out: &mut impl Write) -> io::Result<()> {
    out.write_all(b"an altered record is kept\n")?;
    let mut row = [0u32; 60];
    let listed = reading::read(b"a\nb\n", 0, 0, &mut row);
    row[0] = 4;
    let r = rereading::reread(b"a\nbb\n", 0, &mut row, listed.count as usize, 3);
    print_all(out, &row, r)
}

// Characters at A and at the cut.
fn marks(out: &mut impl Write) -> io::Result<()> {
    // The Newline of the CR ends at 2, which is A, and is no cut: the LF typed there joins the CR. The text is read whole:
    // 3 0 1 0, 0 1 3 0, 3 3 4 1, 0 4 4 1, then 0 4 4 0.
    edit(
        out,
        b"a line feed joins its carriage return\n",
        b"a\rb",
        b"a\r\nb",
        0,
        2,
    )?;

    // Read again at 2, where the cut ends: the BOM there is not skipped, as it is no character that a token starts with.
    // 3 0 1 0 and 0 1 2 0 are kept, then 26 2 5 65279, after the BOM's three bytes.
    edit(
        out,
        b"a byte order mark at the cut\n",
        b"a\n\xef\xbb\xbfb",
        b"a\n\xef\xbb\xbfbb",
        0,
        3,
    )
}

// Levels that are open where the text is read again.
fn levels(out: &mut impl Write) -> io::Result<()> {
    // The cut stands within a block: the level of one space is rebuilt from the Indent's record, so that the third line opens none, and
    // the end closes it. 120 0 2 0, 3 3 4 0, 63 4 5 0, 0 5 6 0, 1 6 7 1, 3 7 8 1 and 0 8 9 1 are kept; 3 10 12 2, 0 12 13 2 and, in line 3,
    // 2 13 13 3 are read: 0 10 13 0.
    edit(
        out,
        b"a level open at the cut\n",
        b"if a:\n b\n c\n",
        b"if a:\n b\n cc\n",
        0,
        10,
    )?;

    // The same with a tab and a space, and the third line left of it: the block closes before it. As above with 1 6 8 1, 3 8 9 1, 0 9 10 1
    // kept; 2 10 10 2, 3 10 12 2 and 0 12 13 2 are read: 0 10 13 0.
    edit(
        out,
        b"a level closed behind the cut\n",
        b"if a:\n\t b\nc\n",
        b"if a:\n\t b\ncc\n",
        0,
        11,
    )
}

// Where a line starts, and where it does not.
fn lines(out: &mut impl Write) -> io::Result<()> {
    // Behind a cut a line starts, in the mode Expression too, where the text's start is none: `match` is a keyword.
    // 3 0 1 0 and 0 1 2 0 are kept; 140 2 7 1, 3 8 9 1, 63 9 10 1, 3 11 12 1 and 0 12 13 1 are read: 0 7 13 0.
    edit(
        out,
        b"a soft keyword behind the cut\n",
        b"a\nmat\n",
        b"a\nmatch x: y\n",
        2,
        5,
    )?;

    // In mode 3 comments and newlines that end no logical line are listed, and such a newline is no cut: that of the comment's line ends at 5,
    // below A, and is read again with the comment. 3 0 1 0 and 0 1 2 0 are kept; 7 2 4 1, 8 4 5 1, 3 5 7 2 and 0 7 8 2 are read: 0 6 8 0.
    edit(
        out,
        b"a comment's newline is no cut\n",
        b"a\n#c\nb\n",
        b"a\n#c\nbb\n",
        3,
        6,
    )?;

    // No Newline ends below A: the text is read whole. 3 0 2 0, 0 2 2 0, then 0 2 2 0.
    edit(out, b"no cut\n", b"x", b"xy", 0, 1)?;

    // The newline in the string is counted, and CR LF once: 3 0 1 0, 30 2 3 0, 17 4 11 0 and 0 11 13 1 are kept; 3 13 15 2 and 0 15 16 2
    // are read: 0 6 16 0.
    edit(
        out,
        b"lines behind a string and a CR LF\n",
        b"x = '''\n'''\r\ny\n",
        b"x = '''\n'''\r\nyy\n",
        0,
        14,
    )
}

// Reads a text again over a row that says what it likes, of which so many records count.
fn given(
    out: &mut impl Write,
    title: &[u8],
    new: &[u8],
    row: &mut [u32],
    old: usize,
    a: usize,
) -> io::Result<()> {
    out.write_all(title)?;
    let r = rereading::reread(new, 0, row, old, a);
    print_all(out, row, r)
}

// Codes 1, 2 and 3.
fn refused_texts(out: &mut impl Write) -> io::Result<()> {
    // A text of 16,777,217 bytes is more than a program's stack holds: code 1 is shown by the whole reading, whose start has no room
    // for one byte. 1 0 0 0
    out.write_all(b"refused: past 32 bits\n")?;
    print_answer(out, reading::read(b"x", 0, 4294967295, &mut [0, 0, 0, 0]))?;

    // Modes are 0 to 5; it is seen before the text's ill-formed UTF-8. 2 0 0 0
    edit(out, b"refused: mode\n", b"a\n", b"\xff", 6, 0)?;

    // The surrogate's first byte stands at 2, and its fault is 6; it is seen before A, which is above the text's length. 3 0 2 6
    edit(out, b"refused: UTF-8\n", b"a\n", b"a\n\xed\xa0\x80", 0, 9)
}

// Code 5.
fn refused_places(out: &mut impl Write) -> io::Result<()> {
    let mut row = [0u32; 13];

    // A row of 13 numbers holds 3 records. 5 0 0 0
    given(out, b"refused: old count\n", b"a\n", &mut row, 4, 0)?;

    // A may be the text's length, 2, and no more: 3 0 1 0, 0 1 2 0 and 0 2 2 0; then 5 0 0 0.
    given(out, b"A at the end\n", b"a\n", &mut row, 0, 2)?;
    given(out, b"refused: A\n", b"a\n", &mut row, 0, 3)
}

// Code 6 for the cut.
fn refused_cuts(out: &mut impl Write) -> io::Result<()> {
    // The last Newline below A ends at 1, and the byte before is no line end. 6 0 0 0
    given(
        out,
        b"refused: no line ends at the cut\n",
        b"ab",
        &mut [0, 0, 1, 0],
        1,
        2,
    )?;

    // E is 0, where no line can end. 6 0 0 0
    given(
        out,
        b"refused: a cut at 0\n",
        b"ab",
        &mut [0, 0, 0, 0],
        1,
        2,
    )?;

    // An LF stands at E, which is in the middle of a CR LF. 6 0 0 0
    given(
        out,
        b"refused: within a CR LF\n",
        b"\r\na",
        &mut [0, 0, 1, 0],
        1,
        2,
    )?;

    // With a CR alone the line ends at E: 0 0 1 0 is kept as given, 3 1 2 1 and 0 2 2 1 are read. 0 3 2 0
    given(
        out,
        b"behind a CR\n",
        b"\ra",
        &mut [0, 0, 1, 0, 9, 9, 9, 9, 9, 9, 9, 9],
        1,
        2,
    )
}

// Code 6 for the cut's line, and lines that are not tested.
fn refused_lines(out: &mut impl Write) -> io::Result<()> {
    // The Newline starts in line 0; its own line end does not count. 6 0 0 0
    given(
        out,
        b"refused: the line of the cut\n",
        b"a\nb\n",
        &mut [3, 0, 1, 0, 0, 1, 2, 1, 9, 9, 9, 9, 9, 9, 9, 9],
        2,
        3,
    )?;

    // Any other kept record's line stays as given: 3 0 1 7 and 0 1 2 0 are kept; 3 2 3 1 and 0 3 4 1 are read. 0 4 4 0
    given(
        out,
        b"a wrong line is kept\n",
        b"a\nb\n",
        &mut [3, 0, 1, 7, 0, 1, 2, 0, 9, 9, 9, 9, 9, 9, 9, 9],
        2,
        3,
    )?;

    // The cut is given over two line ends, and both are counted: 0 1 3 0 is kept as given, 3 3 4 2 and 0 4 5 2 are read. 0 3 5 0
    given(
        out,
        b"lines are counted in the bytes\n",
        b"a\n\nb\n",
        &mut [0, 1, 3, 0, 9, 9, 9, 9, 9, 9, 9, 9],
        1,
        4,
    )
}

// Code 6 for a level.
fn refused_levels(out: &mut impl Write) -> io::Result<()> {
    // An Indent over a letter, over a tab after a space, and over nothing. 6 0 0 0 each
    given(
        out,
        b"refused: an Indent over a letter\n",
        b"a\nb",
        &mut [1, 0, 1, 0, 0, 1, 2, 0],
        2,
        3,
    )?;
    given(
        out,
        b"refused: an Indent's tab after a space\n",
        b" \t\nb",
        &mut [1, 0, 2, 0, 0, 2, 3, 0],
        2,
        4,
    )?;
    given(
        out,
        b"refused: an empty Indent\n",
        b"\nb",
        &mut [1, 0, 0, 0, 0, 0, 1, 0],
        2,
        2,
    )?;

    // A Dedent before any Indent. 6 0 0 0
    given(
        out,
        b"refused: a Dedent too many\n",
        b"\nb",
        &mut [2, 0, 0, 0, 0, 0, 1, 0],
        2,
        2,
    )
}

// Code 6 for a record's places, and code 4.
fn refused_records(out: &mut impl Write) -> io::Result<()> {
    // A record that starts after its end, and one that ends behind the cut, far outside the text. 6 0 0 0 each
    given(
        out,
        b"refused: a record turned round\n",
        b"a\nb",
        &mut [3, 1, 0, 0, 0, 1, 2, 0],
        2,
        3,
    )?;
    given(
        out,
        b"refused: a record behind the cut\n",
        b"a\nb",
        &mut [1, 4000000000, 4000000001, 0, 0, 1, 2, 0],
        2,
        3,
    )?;

    // The list has room for the two records that are kept, and the reading needs four. 4 4 0 0
    given(
        out,
        b"refused: no room\n",
        b"a\nb\n",
        &mut [3, 0, 1, 0, 0, 1, 2, 0],
        2,
        3,
    )
}

// Audits so many records of a row.
fn audited(out: &mut impl Write, title: &[u8], row: &[u32], old: u32) -> io::Result<()> {
    out.write_all(title)?;
    print_answer(out, audit::audit(row, old))
}

// Code 34: a 201st bracket is open.
fn deep_audits(out: &mut impl Write) -> io::Result<()> {
    // So many openers, ( in every record. Two hundred may be open: 0 0 200 0. One more is told by its index: 34 0 200 0
    let openers = [57u32; 808];
    audited(out, b"audit: 200 open\n", &openers, 200)?;
    audited(out, b"audit: 201 open\n", &openers, 201)?;

    // A ] at index 200 is wrong, and comes before the 201st opener at index 201. 0 0 200 0
    let mut row = [57u32; 808];
    row[800] = 60;
    audited(out, b"audit: a wrong closer first\n", &row, 202)?;

    // A ) at index 200 closes the latest opener, so that another may follow: every closer is right. 0 0 202 0
    row[800] = 58;
    audited(out, b"audit: one closed\n", &row, 202)
}

fn audits(out: &mut impl Write) -> io::Result<()> {
    // ( [ ] x { } ): every closer closes the latest opener, so the place is the old count. 0 0 7 0
    audited(
        out,
        b"audit: ([]x{})\n",
        &[
            57, 0, 1, 0, 59, 1, 2, 0, 60, 2, 3, 0, 3, 3, 4, 0, 61, 4, 5, 0, 62, 5, 6, 0, 58, 6, 7,
            0,
        ],
        7,
    )?;

    // ( [ x ) ]: the round closer at index 3 meets the square opener, though a round one is open too. 0 0 3 0
    audited(
        out,
        b"audit: ([x)]\n",
        &[
            57, 0, 1, 0, 59, 1, 2, 0, 3, 2, 3, 0, 58, 3, 4, 0, 60, 4, 5, 0,
        ],
        5,
    )?;

    // ( ]: the square closer at index 1 meets the round opener. 0 0 1 0
    audited(out, b"audit: (]\n", &[57, 0, 1, 0, 60, 1, 2, 0], 2)?;

    // { } } with two records counted, and with three: at index 2 no opener is open. 0 0 2 0 each, the count and then the index
    audited(
        out,
        b"audit: {}\n",
        &[61, 0, 1, 0, 62, 1, 2, 0, 62, 2, 3, 0],
        2,
    )?;
    audited(
        out,
        b"audit: {}}\n",
        &[61, 0, 1, 0, 62, 1, 2, 0, 62, 2, 3, 0],
        3,
    )?;

    // ] ): the first is at index 0. 0 0 0 0
    audited(out, b"audit: ])\n", &[60, 0, 1, 0, 58, 1, 2, 0], 2)?;

    // Two records, and a third counted. 5 0 0 0
    audited(out, b"audit: old count\n", &[57, 0, 1, 0, 58, 1, 2, 0], 3)
}

fn main(rt: HostRuntime) -> io::Result<()> {
    let out = &mut rt.stdout();
    altered(out)?;
    marks(out)?;
    levels(out)?;
    lines(out)?;
    refused_texts(out)?;
    refused_places(out)?;
    refused_cuts(out)?;
    refused_lines(out)?;
    refused_levels(out)?;
    refused_records(out)?;
    audits(out)?;
    deep_audits(out)
}
