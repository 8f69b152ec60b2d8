// The picture of a box that begins at an admission: the numbers of the title's lanes from its start on, the places at which it takes its
// cells, and the text.

ghost use Rattle.std.specs.Prelude.{◌*◌, ◌≡◌, length};
ghost use Rattle.rules.specs.Limits.{plan_places, lane_places};
ghost use Rattle.text.specs.Pages.{Puts};
ghost use Rattle.plans.specs.Row.{written};
ghost use Rattle.log_boxes.specs.Box.{box_answer, box_place, box_picture};
ghost use Rattle.log_boxes.specs.inner.Steps.{BoxStands, BoxRooms};

use box_charts::{Begun, put_picture};
use grid::pow2;
use measures::ticks::tick_at;
use playouts::follow::end_of;
use playouts::window::fill;
use rules::{LANE_PLACES, PLAN_PLACES};
use story::Title;
use takings::take_all;
use text::page::Page;

// The numbers of as many ticks as a box may have.
const NUMBERS_MAX: usize = PLAN_PLACES * LANE_PLACES;

// The `ensures` give the lengths, which lending the arrays as slices needs.
fn blank_numbers() -> [u16; NUMBERS_MAX]
    ensures { length result ≡ plan_places * lane_places }
{
    [0; NUMBERS_MAX]
}

fn blank_places() -> [u16; PLAN_PLACES]
    ensures { length result ≡ plan_places }
{
    [0; PLAN_PLACES]
}

// The places at which the box takes its cells, over lent numbers.
fn take_places(
    pool: u64,
    log: &[u8],
    title: u64,
    time: u64,
    t: Title,
    numbers: &mut [u16],
    places: &mut [u16],
)
    requires box_stands { BoxStands pool log.now title time t }
    requires box_rooms { BoxRooms t numbers.old places.old }
    ensures { places.new ≡ written (box_place pool log.now title time) places.old (length places.old) }
{
    let film = t.film;
    let tick = scheme::tick(film.kind, film.length, film.floor, film.cap);
    fill(pool, log, title, tick_at(t, time), pow2(film.cap), numbers);
    take_all(numbers, film.length, tick, places);
}

// The picture, over lent rows.
fn draw_into(
    page: &mut Page<'_>,
    pool: u64,
    log: &[u8],
    title: u64,
    time: u64,
    t: Title,
    numbers: &mut [u16],
    places: &mut [u16],
)
    requires box_stands { BoxStands pool log.now title time t }
    requires box_rooms { BoxRooms t numbers.old places.old }
    ensures { Puts page.old (box_picture pool log.now title time) page.new }
{
    let film = t.film;
    take_places(pool, log, title, time, t, numbers, places);
    let begun = Begun {
        title,
        moment: time,
        tick: scheme::tick(film.kind, film.length, film.floor, film.cap),
        lanes: film.cap,
    };
    put_picture(page, begun, places);
}

pub fn draw(page: &mut Page<'_>, pool: u64, log: &[u8], title: u64, time: u64)
    requires { box_answer pool log.now title time ≡ 0 }
    ensures { Puts page.old (box_picture pool log.now title time) page.new }
{
    let end = end_of(pool, log, title);
    let t = end.title;
    let cells = pow2(t.film.cap) as usize;
    let n = cells * LANE_PLACES;
    let mut numbers = blank_numbers();
    let mut places = blank_places();
    draw_into(
        page,
        pool,
        log,
        title,
        time,
        t,
        &mut numbers[..n],
        &mut places[..cells],
    );
}
