// The box plan from a lent table: one pass over a period of ticks, from the last back to the start, gives each cell the tick at
// which a lane shows it, so that the first stays. `plan` is a customer's call and has no `requires`.

ghost use Rattle.std.specs.Prelude.{◌+◌, ◌^◌, ◌≤◌, ◌<◌, ◌≡◌, length};
ghost use Rattle.rules.specs.Limits.{asked_max};
ghost use Rattle.rules.specs.Told.{told};
ghost use Rattle.plans.specs.Padded.{never};
ghost use Rattle.plans.specs.Row.{written};
ghost use Rattle.rom_table.specs.Table.{rom_cap, rom_period, rom_entries, table_cell};
ghost use Rattle.rom.specs.Showing.{seen_within};
ghost use Rattle.rom.specs.Plan.{
  rom_plan_answer,
  places_beside,
  TablePlanned,
  noted_once as noted_of,
  noted_lanes,
  noted_ticks,
};

use plans::NEVER;
use plans::padded::answer;
use rom_table::{ENTRIES, PERIOD, cell_at, is_other};
use rules::DONE;
use rules::answers::Refusal;

// The cells of a film with the box's cap.
const CELLS: usize = 1024;

// No cell has a tick yet.
fn clear(row: &mut [u16])
    requires { 2 ^ rom_cap ≤ length row.old }
    ensures { row.new ≡ written (λ c. never) row.old (2 ^ rom_cap) }
{
    row[..CELLS].fill(NEVER);
}

// Notes a tick for a cell. A lent table may have numbers that are no cells: those have no place.
fn note(row: &mut [u16], cell: u16, after: u64)
    requires { (2 ^ rom_cap ≤ length row.old) × (after < rom_period) }
    ensures { row.new ≡ noted_of row.old cell after }
{
    let place = cell as usize;
    if place < CELLS {
        row[place] = after as u16;
    }
}

// Notes what the lanes of a count show at a tick, `after` ticks from the start.
fn note_lanes(table: &[u16], row: &mut [u16], count: u64, tick: u64, after: u64)
    requires table_len { length table.now ≡ rom_entries }
    requires count_le_rom_cap { (count ≤ rom_cap) × (2 ^ rom_cap ≤ length row.old) }
    requires after_lt_rom_period { after < rom_period }
    ensures { row.new ≡ noted_lanes table.now row.old tick after count }
{
    for lane in 0..count {
        note(row, cell_at(table, lane, tick), after);
    }
}

// Notes what they show in one period from the start on, the last tick first: no box takes a cell later.
fn note_ticks(table: &[u16], row: &mut [u16], count: u64, arrival: u64)
    requires table_len { length table.now ≡ rom_entries }
    requires count_le_rom_cap { (count ≤ rom_cap) × (2 ^ rom_cap ≤ length row.old) }
    requires arrival_le_asked_max { arrival ≤ asked_max }
    ensures { row.new ≡ noted_ticks table.now row.old count arrival rom_period }
{
    for after in (0..PERIOD).rev() {
        note_lanes(table, row, count, arrival + after, after);
    }
}

// Writes each cell's first showing into the first 2^cap places of the row.
fn fill(table: &[u16], row: &mut [u16], count: u64, arrival: u64)
    requires table_len { length table.now ≡ rom_entries }
    requires count_le_rom_cap { (count ≤ rom_cap) × (2 ^ rom_cap ≤ length row.old) }
    requires arrival_le_asked_max { arrival ≤ asked_max }
    ensures { row.new
        ≡ written (seen_within (table_cell table.now) count arrival rom_period) row.old (2 ^ rom_cap) }
{
    clear(row);
    note_ticks(table, row, count, arrival);
}

// The small box's answer for a lent row of `places` places: 1 for another floor or cap, then as the computing call.
fn rom_answer(floor: u64, cap: u64, count: u64, arrival: u64, places: usize) -> Result<(), Refusal>
    ensures { told result ≡ rom_plan_answer floor cap count arrival places }
{
    if is_other(floor, cap) {
        return Err(Refusal::OutsideLimits);
    }
    answer(floor, cap, count, arrival, places)
}

// How many places count of a row: none beside a table of another length.
fn places_beside(table: &[u16], places: usize) -> usize
    ensures { result ≡ places_beside table.now places }
{
    if table.len() == ENTRIES {
        return places;
    }
    0
}

// kept: a customer's call gives back 01's number (docs/PROMISES.md, "Public calls"; `rongalishu_c`).
// Writes the plan of a box that starts at tick `arrival` under `count` into the first 1,024 places of the row, by a lent table; by
// one that was filled, as the computing call does. Later places stay. A refusal writes nothing.
pub fn plan(table: &[u16], floor: u64, cap: u64, count: u64, arrival: u64, row: &mut [u16]) -> u8
    ensures { TablePlanned table.now floor cap count arrival row.old result row.new }
{
    let places = places_beside(table, row.len());
    if let Err(refusal) = rom_answer(floor, cap, count, arrival, places) {
        return refusal.number();
    }
    fill(table, row, count, arrival);
    DONE
}
