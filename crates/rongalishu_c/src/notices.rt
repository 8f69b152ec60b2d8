// Notices as rows of eight numbers: written, read, and found in a log one after another.

ghost use Rattle.notice_rows.specs.Calls.{ReadsRow};
ghost use Rattle.rongalishu.specs.Notices.{WrittenGiven, NextGiven};

// Writes the notice of a row at the start of a room, and how many bytes it has into the first place of another row.
#[unsafe(no_mangle)]
pub extern "C" fn rl_write_row(fields: &[u64], room: &mut [u8], written: &mut [u64]) -> u8
    ensures { WrittenGiven fields.now room.old written.old result room.new
        written.new }
{
    rongalishu::notices::rl_write_row(fields, room, written)
}

// Reads one notice, and nothing after it, into the first eight places of a row.
#[unsafe(no_mangle)]
pub extern "C" fn rl_read_row(bytes: &[u8], fields: &mut [u64]) -> u8
    ensures { ReadsRow bytes.now fields.old result fields.new }
{
    rongalishu::notices::rl_read_row(bytes, fields)
}

// Reads what a log has at a place into the first eight places of a row, and moves the place on; 255 at the log's end.
#[unsafe(no_mangle)]
pub extern "C" fn rl_next_row(log: &[u8], place: &mut [u64], fields: &mut [u64]) -> u8
    ensures { NextGiven log.now place.old fields.old result place.new
        fields.new }
{
    rongalishu::notices::rl_next_row(log, place, fields)
}
