// A log played into a fresh agent, notice by notice, while the ticks of one title are marked.

ghost use Rattle.std.specs.Prelude.{◌≡◌, true, length};
ghost use Rattle.notice.specs.Decode.{read_at};
ghost use Rattle.agent_rows.specs.Layout.{row_length};
ghost use Rattle.agent_rows.specs.Packed.{unpacked};
ghost use Rattle.row_calls.specs.inner.Steps.{Tested};
ghost use Rattle.logs.specs.Reading.{PlayedStep, Plays};
ghost use Rattle.airing.specs.Air.{in_limits};
ghost use Rattle.airing.specs.inner.Steps.{heard_marks, ReadyToMark, followed_answer, Ends, Follows};

use crate::marks::mark_to;
use agent_rows::ROW_LENGTH;
use agent_rows::reading::title_at;
use logs::{PlayedLog, not_begun, read_for};
use measures::ticks::tick_at;
use rules::{DONE, MALFORMED, NOT_THERE};
use scheme::PADDED;
use story::{OPEN, Title};

// What a log answers, and the title as it stands at its end.
// kept: a Result would be no plainer, as `reasons::is_steady` asks for the title beside answer 3.
#[derive(Clone, Copy)]
pub struct Ending {
    pub answer: u8,
    pub title: Title,
}

// One read more of the log. An accepted event of the title while it is open settles its ticks so far; any other is an opening, with
// which they begin anew.
fn step(row: &mut [u64], place: usize, log: &[u8], title: u64, marks: &mut [u8]) -> PlayedLog
    requires tested { Tested row.old }
    requires ready_to_mark { ReadyToMark (unpacked row.old) title }
    ensures { PlayedStep (heard_marks title) row.old place marks.old (read_at log.now place)
        row.new result marks.new }
{
    let read = read_for(row, place, log, title);
    let next = read.played;
    let t = read.before;
    let mode = t.mode;
    if read.own {
        if mode == OPEN {
            mark_to(t, tick_at(t, read.time), marks);
            return next;
        }
    }
    next
}

// A log, played into a fresh agent in a row up to where its reading stops.
fn play(row: &mut [u64], pool: u64, log: &[u8], title: u64, marks: &mut [u8]) -> PlayedLog
    requires row_len { length row.old ≡ row_length }
    requires title_value { in_limits pool title ≡ true }
    ensures { Plays (heard_marks title) pool log.now marks.old row.new result marks.new }
{
    let mut played = not_begun(row, pool);
    while played.more {
        played = step(row, played.place, log, title, marks);
    }
    played
}

// What a log answers of a title as it stands at the log's end.
fn answer_of(place: usize, size: usize, t: Title) -> u8
    ensures { result ≡ followed_answer place size t }
{
    let cap = t.film.cap;
    let kind = t.film.kind;
    if place < size {
        return MALFORMED;
    }
    if cap == 0 {
        return NOT_THERE;
    }
    if kind == PADDED {
        return DONE;
    }
    NOT_THERE
}

// A log played to its end. Where it answers done, the whole row is marked: no event follows, and the title stays as it stands.
pub fn follow(pool: u64, log: &[u8], title: u64, marks: &mut [u8]) -> Ending
    requires { in_limits pool title ≡ true }
    ensures { Follows pool log.now title marks.old result marks.new }
{
    let mut row = [0; ROW_LENGTH];
    let played = play(&mut row, pool, log, title, marks);
    let t = title_at(&row, title);
    let answer = answer_of(played.place, log.len(), t);
    if answer == DONE {
        mark_to(t, marks.len() as u64, marks);
    }
    Ending { answer, title: t }
}

// A log played to its end, with no tick marked.
pub fn end_of(pool: u64, log: &[u8], title: u64) -> Ending
    requires { in_limits pool title ≡ true }
    ensures { Ends pool log.now title result }
{
    let mut none = [0; 1];
    follow(pool, log, title, &mut none[..0])
}
