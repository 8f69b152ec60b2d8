// The small box's lane question, in place: neither the state nor the table is copied.

ghost use Rattle.std.specs.Prelude.{◌+◌, ◌≤◌, ◌≡◌, length};
ghost use Rattle.rom_table.specs.Table.{rom_entries};
ghost use Rattle.rom.specs.Lanes.{is_foreign, rom_lane_answer};
ghost use Rattle.agent_rows.specs.Layout.{row_length, title_places};
ghost use Rattle.agent_rows.specs.Packed.{title_from, unpacked};
ghost use Rattle.row_calls.specs.Answers.{on_sound};
ghost use Rattle.row_questions.specs.Questions.{row_rom_lane, tick_out, row_rom_shows};

use agent_rows::reading::title_place;
use agent_rows::{CAP_AT, FLOOR_AT, KIND_AT, MODE_AT, ROW_LENGTH};
use rom_table::{ENTRIES, cell_at, is_other};
use row_calls::lanes::{ShownTick, shown_tick};
use rules::{DONE, ID_MAX, OUTSIDE_LIMITS, WRONG_ROWS};
use scheduler::Shown;
use scheme::STEADY;
use story::ABSENT;

// Whether the title at a place has another floor or cap than the small box, or another scheme.
fn is_foreign(row: &[u64], at: usize) -> bool
    requires { at + title_places ≤ length row.now }
    ensures { result ≡ is_foreign (title_from row.now at) }
{
    row[at + MODE_AT] != ABSENT
        && (row[at + KIND_AT] == STEADY || is_other(row[at + FLOOR_AT], row[at + CAP_AT]))
}

// The answer, and the tick whose cell goes out: 1 for another floor or cap and for a skip-forward title, then as the computing call.
fn rom_tick(row: &[u64], id: u64, lane: u64, time: u64) -> ShownTick
    requires { length row.now ≡ row_length }
    ensures { (result.answer ≡ on_sound row.now (rom_lane_answer (unpacked row.now).state id lane time))
        × (result.answer ≡ 0 → result.tick ≡ tick_out row.now id lane time) }
{
    if id <= ID_MAX && is_foreign(row, title_place(id)) {
        return ShownTick {
            answer: OUTSIDE_LIMITS,
            tick: 0,
        };
    }
    shown_tick(row, id, lane, time)
}

// A refusal.
fn refused(answer: u8) -> Shown
    ensures { (result.answer ≡ answer) × (result.cell ≡ 0) }
{
    Shown { answer, cell: 0 }
}

// Which cell goes out on a lane of a title in the tick that holds a time: the number that a lent table has for it.
pub fn rom_lane(row: &[u64], table: &[u16], id: u64, lane: u64, time: u64) -> Shown
    ensures { (result.answer ≡ row_rom_lane row.now table.now id lane time)
        × (result.cell ≡ row_rom_shows row.now table.now id lane time) }
{
    if row.len() != ROW_LENGTH || table.len() != ENTRIES {
        return refused(WRONG_ROWS);
    }
    let shown = rom_tick(row, id, lane, time);
    let answer = shown.answer;
    if answer == DONE {
        return Shown {
            answer: DONE,
            cell: u64::from(cell_at(table, lane, shown.tick)),
        };
    }
    refused(answer)
}
