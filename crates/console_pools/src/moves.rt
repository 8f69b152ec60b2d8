// What the planner lists.

ghost use Rattle.std.specs.Prelude.{◌≡◌, ◌-◌, ◌≤◌, min};
ghost use Rattle.console_commands.specs.Commands.{titles_most, room_most};
ghost use Rattle.planner.specs.Outcome.{room_of};
ghost use Rattle.text.specs.Pages.{Puts};
ghost use Rattle.console_pools.specs.Moves.{planner_text, rates_of, planner_in};

use crate::beside::put_beside;
use crate::columns::column;
use console_answers::outcomes;
use console_commands::commands;
use console_commands::commands::{ROOM_MOST, TITLES_MOST};
use console_limits::asked::put_asked;
use console_lines::lines::NUMBERS_MOST;
use rules::DONE;
use story::State;
use text::page::Page;

// Into rows that are lent, with the line's numbers besides.
fn put_rows(
    page: &mut Page<'_>,
    asked: &[u64],
    s: State,
    time: u64,
    rates: &[u32],
    ids: &mut [u64],
    times: &mut [u64],
    counts: &mut [u64],
)
    ensures { Puts page.old
        (planner_text asked.now s time rates.now (room_of ids.old times.old counts.old)) page.new }
{
    let listed = planner::planner(s, time, rates, ids, times, counts);
    let answer = listed.answer;
    outcomes::put_done(page, answer, 0);
    if answer == DONE {
        let none = [0u64; 0];
        put_beside(page, ids, times, counts, &none, listed.many as usize);
    } else {
        put_asked(page, answer, commands::PLANNER, asked, s.last);
    }
}

// How many rates follow the time and the room, up to the most.
fn rates_of(count: usize) -> usize
    ensures { (result ≡ rates_of count) × (result ≤ titles_most) }
{
    count.saturating_sub(2).min(TITLES_MOST)
}

// As many places as are asked for, up to the most.
fn room_for(room: u64) -> usize
    ensures { (result ≡ min room room_most) × (result ≤ room_most) }
{
    room.min(ROOM_MOST as u64) as usize
}

// The numbers of the line: a time, a room for the list, and rates up to its count.
pub fn put_planner(page: &mut Page<'_>, s: State, numbers: [u64; NUMBERS_MOST], count: usize)
    ensures { Puts page.old (planner_in s numbers count) page.new }
{
    let n = rates_of(count);
    let room = room_for(numbers[1]);
    let rates = column(&numbers, 2, 1);
    let mut ids = [0u64; ROOM_MOST];
    let mut times = [0u64; ROOM_MOST];
    let mut counts = [0u64; ROOM_MOST];
    let time = numbers[0];
    let end = 2 + n;
    put_rows(
        page,
        &numbers[..end],
        s,
        time,
        &rates[..n],
        &mut ids[..room],
        &mut times[..room],
        &mut counts[..room],
    );
}
