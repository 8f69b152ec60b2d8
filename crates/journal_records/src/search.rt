// The search for the next record behind a place.

ghost use Rattle.std.specs.Prelude.{◌≡◌};
ghost use Rattle.journal_records.specs.Search.{NextRecord};

use super::records::verifies;

// The first place from one on at which a record stands, or the end of the bytes where none does; a place behind the end comes back.
// kept: the end of the bytes where none stands is what `NextRecord` promises
pub fn next_record(identity: &[u8], bytes: &[u8], from: usize) -> usize
    ensures { NextRecord identity.now bytes.now from result }
{
    for at in from..bytes.len() {
        if verifies(identity, bytes, at) {
            return at;
        }
    }
    from.max(bytes.len())
}
