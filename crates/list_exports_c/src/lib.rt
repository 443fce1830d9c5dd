// The static library of the second door: each is the function of that name in crates/list_exports, with its contract.
// Kept: twins, for a crate is a library or a static library, and the doors for C need the second.

#![tactic(auto)]

ghost use Rattle.std.specs.Prelude.{◌≡◌};
ghost use Rattle.records.specs.Records.{flat};
ghost use Rattle.audit.specs.Audits.{audit_of};
ghost use Rattle.list_reading.specs.Door.{ReadsInto};
ghost use Rattle.list_rereading.specs.Door.{RereadsInto};

use answers::Answer;
use token::Record;

// Reads a text in a mode at a start into a list of records.
#[unsafe(no_mangle)]
pub extern "C" fn srv_list_read(text: &[u8], mode: u32, start: u32, list: &mut [Record]) -> Answer
    ensures { ReadsInto text.now mode start list.old result list.new }
{
    list_exports::srv_list_read(text, mode, start, list)
}

// Reads a text again, after an edit that left its first a bytes as they were when the list's first `old` records were read.
#[unsafe(no_mangle)]
pub extern "C" fn srv_list_reread(
    text: &[u8],
    mode: u32,
    list: &mut [Record],
    old: u32,
    a: u32,
) -> Answer
    ensures { RereadsInto text.now mode list.old old a result list.new }
{
    list_exports::srv_list_reread(text, mode, list, old, a)
}

// Audits the first `old` records of a list.
#[unsafe(no_mangle)]
pub extern "C" fn srv_list_audit(list: &[Record], old: u32) -> Answer
    ensures { result ≡ audit_of (flat list.now) old }
{
    list_exports::srv_list_audit(list, old)
}
