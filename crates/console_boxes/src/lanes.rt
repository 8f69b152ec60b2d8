// What a lane shows, of the computing box and of the small one.

ghost use Rattle.std.specs.Prelude.{◌≡◌};
ghost use Rattle.text.specs.Pages.{Puts};
ghost use Rattle.console_boxes.specs.Lanes.{lane_text, is_foreign_at, rom_lane_reason, rom_lane_text};

use crate::small::{put_small, table};
use console_answers::outcomes;
use console_reasons::lanes::put_lane_reason;
use rom::lanes::is_foreign;
use rules::{ID_MAX, OUTSIDE_LIMITS};
use story::State;
use text::page::Page;

pub fn put_lane(page: &mut Page<'_>, s: State, id: u64, lane: u64, time: u64)
    ensures { Puts page.old (lane_text s id lane time) page.new }
{
    let shown = scheduler::lane(s, id, lane, time);
    let answer = shown.answer;
    outcomes::put_value(page, answer, shown.cell, 0);
    put_lane_reason(page, answer, s, id, lane, time);
}

// Whether the id's title is none for the small box.
fn is_foreign_at(s: State, id: u64) -> bool
    ensures { result ≡ is_foreign_at s id }
{
    id <= ID_MAX && is_foreign(s.titles[id as usize])
}

// What stands behind a refusal of the small box.
#[tactic(auto, unfolding(crate::specs::Lanes::rom_lane_reason))]
fn put_rom_reason(page: &mut Page<'_>, answer: u8, s: State, id: u64, lane: u64, time: u64)
    ensures { Puts page.old (rom_lane_reason answer s id lane time) page.new }
{
    if answer == OUTSIDE_LIMITS && is_foreign_at(s, id) {
        put_small(page);
    } else {
        put_lane_reason(page, answer, s, id, lane, time);
    }
}

pub fn put_rom_lane(page: &mut Page<'_>, s: State, id: u64, lane: u64, time: u64)
    ensures { Puts page.old (rom_lane_text s id lane time) page.new }
{
    let table = table();
    let shown = rom::lanes::lane(&table, s, id, lane, time);
    let answer = shown.answer;
    outcomes::put_value(page, answer, shown.cell, 0);
    put_rom_reason(page, answer, s, id, lane, time);
}
