// Over which time a log of notices is drawn, and how many lanes each id has a row for: from the first accepted event to the last lane
// that is released. The log is played once into a fresh agent. These functions are for the crates above, and say in a `requires` what
// they build on.
#![tactic(auto)]

ghost use Rattle.std.specs.Prelude.{◌≡◌, true, ◌≤◌, length};
ghost use Rattle.rules.specs.Limits.{within, pool_min, pool_max, id_max, titles_max};
ghost use Rattle.notice.specs.Decode.{read_at};
ghost use Rattle.agent_rows.specs.Layout.{row_length};
ghost use Rattle.agent_rows.specs.Packed.{unpacked};
ghost use Rattle.row_calls.specs.inner.Steps.{Tested};
ghost use Rattle.logs.specs.Reading.{PlayedStep, Plays};
ghost use Rattle.spans.specs.Extents.{no_extent, widened, heard_extent, latest_over, measure_of};

use agent_rows::ROW_LENGTH;
use agent_rows::reading::title_at;
use logs::{PlayedLog, not_begun, read_on};
use rules::{DONE, ID_MAX, TITLES_MAX};
use text::numbers::as_byte;

pub mod releases;

use releases::title_until;

// What is drawn of a log as far as it was played: the time of the first accepted event, if there was one, and of each id the largest cap
// that it was opened with, 0 where it was not.
#[derive(Clone, Copy)]
pub struct Extent {
    pub first: Option<u64>,
    pub caps: [u8; TITLES_MAX],
}

// The same of a whole log, with the moment up to which it is drawn, and the place where its reading stopped.
#[derive(Clone, Copy)]
pub struct Outline {
    pub extent: Extent,
    pub end: u64,
    pub stop: usize,
}

// A log as far as it was played, and what is drawn of it.
#[derive(Clone, Copy)]
struct Measured {
    played: PlayedLog,
    extent: Extent,
}

// Before any notice.
fn no_extent() -> Extent
    ensures { result ≡ no_extent }
{
    Extent {
        first: None,
        caps: [0; TITLES_MAX],
    }
}

// One accepted event more, of a title that has a cap after it.
fn widen(extent: Extent, id: u64, time: u64, cap: u64) -> Extent
    requires { id ≤ id_max }
    ensures { result ≡ widened extent id time cap }
{
    let place = id as usize;
    let mut next = extent;
    next.first = Some(next.first.unwrap_or(time));
    next.caps[place] = as_byte(u64::from(next.caps[place]).max(cap));
    next
}

// One read more of the log.
fn step(row: &mut [u64], measured: Measured, log: &[u8]) -> Measured
    requires { Tested row.old }
    ensures { PlayedStep heard_extent row.old measured.played.place measured.extent
        (read_at log.now measured.played.place) row.new result.played result.extent }
{
    let extent = measured.extent;
    let read = read_on(row, measured.played.place, log);
    let next = read.played;
    if next.more && read.answer == DONE && read.title <= ID_MAX {
        let t = title_at(row, read.title);
        return Measured {
            played: next,
            extent: widen(extent, read.title, read.time, t.film.cap),
        };
    }
    Measured {
        played: next,
        extent,
    }
}

// A log, played into a fresh agent in a row up to where its reading stops.
fn play(row: &mut [u64], pool: u64, log: &[u8]) -> Measured
    requires row_len { length row.old ≡ row_length }
    requires pool_value { within pool_min pool_max pool ≡ true }
    ensures { Plays heard_extent pool log.now no_extent row.new result.played result.extent × Tested row.new }
{
    let mut measured = Measured {
        played: not_begun(row, pool),
        extent: no_extent(),
    };
    while measured.played.more {
        measured = step(row, measured, log);
    }
    measured
}

// The latest moment of a row's titles: an event, or a release.
fn latest(row: &[u64]) -> u64
    requires { Tested row.now }
    ensures { result ≡ latest_over (unpacked row.now).state titles_max }
{
    let mut end: u64 = 0;
    for id in 0..TITLES_MAX as u64 {
        end = end.max(title_until(title_at(row, id)));
    }
    end
}

// What is drawn of a whole log.
pub fn measure(pool: u64, log: &[u8]) -> Outline
    requires { within pool_min pool_max pool ≡ true }
    ensures { result ≡ measure_of pool log.now }
{
    let mut row = [0; ROW_LENGTH];
    let measured = play(&mut row, pool, log);
    Outline {
        extent: measured.extent,
        end: latest(&row),
        stop: measured.played.place,
    }
}
