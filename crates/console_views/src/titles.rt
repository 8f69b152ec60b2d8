// The titles of a pool, for people: a line for each that is there at a time.

ghost use Rattle.std.specs.Prelude.{◌≤◌, ◌<◌, ◌≡◌, true};
ghost use Rattle.rules.specs.Limits.{asked_max, titles_max};
ghost use Rattle.rules.specs.Search.{how_many};
ghost use Rattle.story.specs.Kept.{state_ok, title_at, is_there};
ghost use Rattle.text.specs.Pages.{Puts};
ghost use Rattle.console_answers.specs.Entries.{each};
ghost use Rattle.console_views.specs.Titles.{title_line, pool_text, title_lines, titles_told, titles_reason, titles_text};

use crate::coming::put_coming;
use crate::films::put_film;
use crate::holding::{put_count, put_holds};
use console_commands::commands;
use console_limits::asked::put_asked;
use measures::lanes::{is_there, lanes_held};
use measures::slots::title_of;
use questions::asked_verdict;
use rules::TITLES_MAX;
use rules::answers::told;
use story::State;
use text::page::Page;

// How many titles are there at a time.
fn titles_there(s: State, time: u64) -> u64
    requires { state_ok s ≡ true }
    ensures { result ≡ how_many (λ i. is_there (title_at s i) time) titles_max }
{
    let mut n = 0;
    for t in &s.titles {
        n += u64::from(is_there(*t, time));
    }
    n
}

// How many they are, and how many lanes of the pool are held.
fn put_pool(page: &mut Page<'_>, s: State, time: u64)
    requires { state_ok s ≡ true }
    ensures { Puts page.old (pool_text s time) page.new }
{
    page.put(b"0 ");
    page.put_number(titles_there(s, time));
    page.put(b" of 16 titles, ");
    page.put_number(lanes_held(s, time));
    page.put(b" of ");
    page.put_number(s.pool);
    page.put(b" lanes held");
}

// The line of the title of an id, where it is there.
fn put_title(page: &mut Page<'_>, s: State, time: u64, id: u64)
    requires s_value { state_ok s ≡ true }
    requires id_lt_titles_max { (id < titles_max) × (time ≤ asked_max) }
    ensures { Puts page.old (title_line s time id) page.new }
{
    let t = title_of(s, id);
    if is_there(t, time) {
        page.put(b"\n");
        page.put_number(id);
        put_film(page, t);
        put_count(page, t);
        put_holds(page, t, time);
        put_coming(page, t, time);
    }
}

// The lines of all titles, ids rising.
fn put_each(page: &mut Page<'_>, s: State, time: u64)
    requires s_value { state_ok s ≡ true }
    requires time_le_asked_max { time ≤ asked_max }
    ensures { Puts page.old (each (title_line s time) titles_max) page.new }
{
    for id in 0..TITLES_MAX as u64 {
        put_title(page, s, time, id);
    }
}

// The pool's line, and behind it those of its titles.
fn put_lines(page: &mut Page<'_>, s: State, time: u64)
    requires s_value { state_ok s ≡ true }
    requires time_le_asked_max { time ≤ asked_max }
    ensures { Puts page.old (title_lines s time) page.new }
{
    put_pool(page, s, time);
    put_each(page, s, time);
}

// What the question is answered.
fn put_told(page: &mut Page<'_>, s: State, time: u64)
    ensures { Puts page.old (titles_told s time) page.new }
{
    match asked_verdict(s, time, true) {
        Ok(()) => put_lines(page, s, time),
        Err(refusal) => words::put_refusal(page, refusal.number(), 0),
    }
}

// What stands behind a refusal.
fn put_reason(page: &mut Page<'_>, answer: u8, s: State, time: u64)
    ensures { Puts page.old (titles_reason answer s time) page.new }
{
    let numbers = [time];
    put_asked(page, answer, commands::TITLES, &numbers, s.last);
}

// The answer, and what stands behind it.
pub fn put_titles(page: &mut Page<'_>, s: State, time: u64)
    ensures { Puts page.old (titles_text s time) page.new }
{
    put_told(page, s, time);
    put_reason(page, told(asked_verdict(s, time, true)), s, time);
}
