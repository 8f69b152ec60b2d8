// Notices as rows of eight numbers: written, read, and found in a log one after another.

ghost use Rattle.notice_rows.specs.Calls.{ReadsRow};
ghost use Rattle.rongalishu.specs.Notices.{WrittenGiven, NextGiven};

use crate::results::give;
use rules::WRONG_ROWS;

// Writes the notice of a row at the start of a room, and how many bytes it has into the first place of another row.
pub fn rl_write_row(fields: &[u64], room: &mut [u8], written: &mut [u64]) -> u8
    ensures { WrittenGiven fields.now room.old written.old result room.new
        written.new }
{
    if written.len() < 1 {
        return WRONG_ROWS;
    }
    let told = notice_rows::write(fields, room);
    give(told.answer, &[told.bytes], written)
}

// Reads one notice, and nothing after it, into the first eight places of a row.
pub fn rl_read_row(bytes: &[u8], fields: &mut [u64]) -> u8
    ensures { ReadsRow bytes.now fields.old result fields.new }
{
    notice_rows::read(bytes, fields)
}

// Reads what a log has at a place into the first eight places of a row, and moves the place on; 255 at the log's end.
pub fn rl_next_row(log: &[u8], place: &mut [u64], fields: &mut [u64]) -> u8
    ensures { NextGiven log.now place.old fields.old result place.new
        fields.new }
{
    if place.len() < 1 {
        return WRONG_ROWS;
    }
    let told = notice_rows::next(log, place[0], fields);
    give(told.answer, &[told.place], place)
}
