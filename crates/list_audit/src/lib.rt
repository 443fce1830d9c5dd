// The bracket audit of a lent list of records: what the first door answers for the list's row.

#![tactic(auto)]

ghost use Rattle.std.specs.Prelude.{◌≡◌};
ghost use Rattle.records.specs.Records.{flat};
ghost use Rattle.audit.specs.Audits.{audit_of};

use answers::Answer;
use token::Record;

// Audits the first `old` records of any list: the first door's audit, at records.
pub fn audit(list: &[Record], old: u32) -> Answer
    ensures { result ≡ audit_of (flat list.now) old }
{
    audit::audit(list, old)
}
