// A log played into a fresh agent, notice by notice, while what the lanes of one title carry in one opening is filled in.

ghost use Rattle.std.specs.Prelude.{◌≡◌, true, length};
ghost use Rattle.notice.specs.Decode.{read_at};
ghost use Rattle.agent_rows.specs.Layout.{row_length};
ghost use Rattle.agent_rows.specs.Packed.{unpacked};
ghost use Rattle.row_calls.specs.inner.Steps.{Tested};
ghost use Rattle.measures.specs.Readable.{Sending};
ghost use Rattle.logs.specs.Reading.{PlayedStep, Plays};
ghost use Rattle.airing.specs.Air.{in_limits};
ghost use Rattle.playouts.specs.inner.Steps.{event_numbers, heard_numbers, RowToFill, ReadyToFill, StandsAt, FillsOn};

use crate::cells::fill_to;
use agent_rows::ROW_LENGTH;
use agent_rows::reading::title_at;
use logs::{PlayedLog, not_begun, read_for};
use measures::ticks::tick_at;
use story::{OPEN, Title};

// Where the reading of a log stopped, and the title as it stands then.
#[derive(Clone, Copy)]
pub struct Standing {
    pub place: usize,
    pub title: Title,
}

// An accepted event of a title, which stood as t before it. One that finds it open settles its ticks so far, if they are those of the
// opening asked for; any other is an opening, with which ticks begin anew.
fn settle(t: Title, time: u64, opening: u64, from: u64, numbers: &mut [u16])
    requires sending { t.mode ≡ 1 → Sending t }
    requires row_to_fill { RowToFill from numbers.old }
    ensures { numbers.new ≡ event_numbers opening from t time numbers.old }
{
    if t.mode == OPEN && t.opened == opening {
        fill_to(t, from, tick_at(t, time), numbers);
    }
}

// One read more of the log.
fn step(
    row: &mut [u64],
    place: usize,
    log: &[u8],
    title: u64,
    opening: u64,
    from: u64,
    numbers: &mut [u16],
) -> PlayedLog
    requires tested { Tested row.old }
    requires ready_to_fill { ReadyToFill (unpacked row.old) title }
    requires row_to_fill { RowToFill from numbers.old }
    ensures { PlayedStep (heard_numbers title opening from) row.old place numbers.old
        (read_at log.now place) row.new result numbers.new }
{
    let read = read_for(row, place, log, title);
    let next = read.played;
    let t = read.before;
    if read.own {
        settle(t, read.time, opening, from, numbers);
        return next;
    }
    next
}

// A log, played into a fresh agent in a row up to where its reading stops.
fn play(
    row: &mut [u64],
    pool: u64,
    log: &[u8],
    title: u64,
    opening: u64,
    from: u64,
    numbers: &mut [u16],
) -> PlayedLog
    requires row_len { length row.old ≡ row_length }
    requires title_value { in_limits pool title ≡ true }
    requires row_to_fill { RowToFill from numbers.old }
    ensures { Plays (heard_numbers title opening from) pool log.now numbers.old
        row.new result numbers.new }
{
    let mut played = not_begun(row, pool);
    while played.more {
        played = step(row, played.place, log, title, opening, from, numbers);
    }
    played
}

// A log played to its end, with the ticks of an opening filled in up to its latest event.
pub fn follow(
    pool: u64,
    log: &[u8],
    title: u64,
    opening: u64,
    from: u64,
    numbers: &mut [u16],
) -> Standing
    requires title_value { in_limits pool title ≡ true }
    requires row_to_fill { RowToFill from numbers.old }
    ensures { FillsOn pool log.now title opening from numbers.old result numbers.new }
{
    let mut row = [0; ROW_LENGTH];
    let played = play(&mut row, pool, log, title, opening, from, numbers);
    Standing {
        place: played.place,
        title: title_at(&row, title),
    }
}

// A log played to its end, with no tick filled in.
pub fn end_of(pool: u64, log: &[u8], title: u64) -> Standing
    requires { in_limits pool title ≡ true }
    ensures { StandsAt pool log.now title result }
{
    let mut none = [0; 1];
    follow(pool, log, title, 0, 0, &mut none[..0])
}
