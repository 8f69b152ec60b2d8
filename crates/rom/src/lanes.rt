// The lane question from a lent table: a lane's usual cell, and the cell that a dropped one still sends, are looked up. `lane` is a
// customer's call and has no `requires`.

ghost use Rattle.std.specs.Prelude.{◌≡◌};
ghost use Rattle.rules.specs.Told.{told};
ghost use Rattle.rom.specs.Lanes.{is_foreign, rom_lane_answer, table_lane_answer, table_lane_shows};

use measures::slots::title_of;
use measures::ticks::tick_at;
use owed::sending::shown_tick;
use questions::lane_verdict;
use rom_table::{ENTRIES, cell_at, is_other};
use rules::answers::Refusal;
use rules::{DONE, ID_MAX};
use scheduler::Shown;
use scheme::STEADY;
use story::{ABSENT, State, Title};

// Whether a slot's title has another floor or cap, or another scheme.
pub fn is_foreign(t: Title) -> bool
    ensures { result ≡ is_foreign t }
{
    t.mode != ABSENT && (t.film.kind == STEADY || is_other(t.film.floor, t.film.cap))
}

// Of a lane question: 1 for a title of another floor or cap and for a skip-forward title, then as the computing call.
fn rom_verdict(s: State, id: u64, lane: u64, time: u64) -> Result<(), Refusal>
    ensures { told result ≡ rom_lane_answer s id lane time }
{
    if id <= ID_MAX && is_foreign(title_of(s, id)) {
        return Err(Refusal::OutsideLimits);
    }
    lane_verdict(s, id, lane, time)
}

// The same by a lent table, of which 10 is asked first.
fn verdict(table: &[u16], s: State, id: u64, lane: u64, time: u64) -> Result<(), Refusal>
    ensures { told result ≡ table_lane_answer table.now s id lane time }
{
    if table.len() != ENTRIES {
        return Err(Refusal::WrongRows);
    }
    rom_verdict(s, id, lane, time)
}

// Which cell goes out on a lane of a title in the tick that holds a time: the number that a lent table has for it.
pub fn lane(table: &[u16], s: State, id: u64, lane: u64, time: u64) -> Shown
    ensures { (result.answer ≡ table_lane_answer table.now s id lane time)
        × (result.cell ≡ table_lane_shows table.now s id lane time) }
{
    match verdict(table, s, id, lane, time) {
        Ok(()) => {
            let t = title_of(s, id);
            let tick = shown_tick(t, lane, tick_at(t, time));
            Shown {
                answer: DONE,
                cell: u64::from(cell_at(table, lane, tick)),
            }
        }
        Err(refusal) => Shown {
            answer: refusal.number(),
            cell: 0,
        },
    }
}
