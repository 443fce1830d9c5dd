// The static library of the reader's doors: each is the function of that name in crates/exports, with its contract.
// Kept: twins, for a crate is a library or a static library, and the doors for C need the second.

#![tactic(auto)]

ghost use Rattle.std.specs.Prelude.{◌≡◌};
ghost use Rattle.answers.specs.Answers.{numbers_of};
ghost use Rattle.reading.specs.Answers.{read_answer, read_row, measure_answer};
ghost use Rattle.rereading.specs.Rereads.{reread_answer, reread_row};
ghost use Rattle.audit.specs.Audits.{audit_of};
ghost use Rattle.exports.specs.Doors.{version, class_of};

// Reads a text in a mode at a start into a row.
#[unsafe(no_mangle)]
pub extern "C" fn srv_read(
    text: &[u8],
    mode: u32,
    start: u32,
    row: &mut [u32],
    answer: &mut [u32; answers::LENGTH],
)
    ensures answer { answer.new ≡ numbers_of (read_answer text.now mode start row.old) }
    ensures records { row.new ≡ read_row text.now mode start row.old }
{
    exports::srv_read(text, mode, start, row, answer);
}

// Answers as srv_read does where the row has room enough.
#[unsafe(no_mangle)]
pub extern "C" fn srv_measure(
    text: &[u8],
    mode: u32,
    start: u32,
    answer: &mut [u32; answers::LENGTH],
)
    ensures { answer.new ≡ numbers_of (measure_answer text.now mode start) }
{
    exports::srv_measure(text, mode, start, answer);
}

// Reads a text again, after an edit that left its first a bytes as they were when the row's first `old` records were read.
#[unsafe(no_mangle)]
pub extern "C" fn srv_reread(
    text: &[u8],
    mode: u32,
    row: &mut [u32],
    old: u32,
    a: u32,
    answer: &mut [u32; answers::LENGTH],
)
    ensures answer { answer.new ≡ numbers_of (reread_answer text.now mode row.old old a) }
    ensures records { row.new ≡ reread_row text.now mode row.old old a }
{
    exports::srv_reread(text, mode, row, old, a, answer);
}

// Audits the brackets of a row's first `old` records.
#[unsafe(no_mangle)]
pub extern "C" fn srv_audit(row: &[u32], old: u32, answer: &mut [u32; answers::LENGTH])
    ensures { answer.new ≡ numbers_of (audit_of row.now old) }
{
    exports::srv_audit(row, old, answer);
}

// The number of this interface: another one where a door's parameters or meaning change.
#[unsafe(no_mangle)]
pub extern "C" fn srv_version() -> u32
    ensures { result ≡ version }
{
    exports::srv_version()
}

// A character's classes: 1 for a start of identifiers, 2 for a continuation, 4 for an emoji.
#[unsafe(no_mangle)]
pub extern "C" fn srv_class(c: u32) -> u32
    ensures { result ≡ class_of c }
{
    exports::srv_class(c)
}
