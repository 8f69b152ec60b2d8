// How long arrivals wait for a title's next admission, stretch by stretch. Between two events of a title its admissions are
// evenly spaced, unless its doors are held: those who come after the last admission of the stretches before and not after the last of this one get
// in here. These functions are for the crate above, and say in a `requires` what they build on.
#![tactic(auto)]

ghost use Rattle.std.specs.Prelude.{◌≤◌, ◌≡◌, length};
ghost use Rattle.rules.specs.Limits.{asked_max, event_time_max};
ghost use Rattle.admissions.specs.Stretches.{
  Spaced,
  Reaches,
  Room,
  Few,
  Playing,
  gather,
  gathered,
  stretch_of,
  fresh_tally,
  settled,
  all_settled,
  admitting as is_admitting,
};

use rules::ASKED_MAX;
use story::{HELD, OPEN, Title};

// What a row of arrivals comes to: how many got in, the longest wait and the sum of the waits, in ms.
#[derive(Clone, Copy)]
pub struct Waits {
    pub admitted: u64,
    pub longest: u64,
    pub sum: u64,
}

// A stretch between two events: an admission every `slot` ms, counted from the opening, from `start` on.
#[derive(Clone, Copy)]
pub struct Stretch {
    pub opened: u64,
    pub slot: u64,
    pub start: u64,
}

// The arrivals so far: those before `from` are settled.
#[derive(Clone, Copy)]
pub struct Tally {
    pub from: u64,
    pub waits: Waits,
}

// The first admission of a stretch, were it endless, at or after a moment.
fn next(s: Stretch, moment: u64) -> u64
    requires spaced { Spaced s }
    requires moment_le_asked_max { moment ≤ asked_max }
    ensures { Reaches s moment result }
{
    let opened = s.opened;
    let slot = s.slot;
    let slots = (moment.max(s.start) - opened + (slot - 1)) / slot;
    opened + slots * slot
}

// One arrival more: who comes from `from` up to `upto` gets in, and waits for the next admission.
fn admit(s: Stretch, from: u64, upto: u64, x: u64, w: Waits) -> Waits
    requires spaced { Spaced s }
    requires upto_le_asked_max { upto ≤ asked_max }
    requires room { Room w }
    ensures { result ≡ gather s from upto x w }
{
    let admitted = w.admitted;
    let longest = w.longest;
    let sum = w.sum;
    if x < from || upto < x {
        return w;
    }
    let wait = next(s, x) - x;
    Waits {
        admitted: admitted + 1,
        longest: longest.max(wait),
        sum: sum + wait,
    }
}

// All arrivals of a row.
fn admit_all(s: Stretch, from: u64, upto: u64, arrivals: &[u64], w: Waits) -> Waits
    requires spaced { Spaced s }
    requires upto_le_asked_max { upto ≤ asked_max }
    requires few { Few (length arrivals.now) w }
    ensures { result ≡ gathered s from upto arrivals.now w (length arrivals.now) }
{
    let mut all = w;
    for arrival in arrivals {
        all = admit(s, from, upto, *arrival, all);
    }
    all
}

// The stretch of an open title from its latest event on.
fn stretch_of(t: Title) -> Stretch
    requires { Playing t }
    ensures { (result ≡ stretch_of t) × Spaced result }
{
    let slot = scheme::slot(t.film.kind, t.film.floor, t.film.cap, t.count)
        * scheme::tick(t.film.kind, t.film.length, t.film.floor, t.film.cap);
    Stretch {
        opened: t.opened,
        slot,
        start: t.last,
    }
}

// Whether a title admits boxes: it is open, and its doors are not held.
#[tactic(auto, using(std::proofs::lemmas::Bool::Decides::nat_tests), unfolding(crate::specs::Stretches::admitting))]
pub fn admitting(t: Title) -> bool
    ensures { result ≡ is_admitting t }
{
    t.mode == OPEN && t.mark != HELD
}

// An opening: nobody who came before it gets in.
pub fn opened(time: u64) -> Tally
    ensures { result ≡ fresh_tally time }
{
    let waits = Waits {
        admitted: 0,
        longest: 0,
        sum: 0,
    };
    Tally { from: time, waits }
}

// An event at `until` ends the stretch of a title: whoever comes up to its last admission is settled.
pub fn ended(t: Title, until: u64, arrivals: &[u64], tally: Tally) -> Tally
    requires playing { t.mode ≡ 1 → Playing t }
    requires until_le_event_time_max { until ≤ event_time_max }
    requires few { Few (length arrivals.now) tally.waits }
    ensures { result ≡ settled t until arrivals.now tally }
{
    let from = tally.from;
    let waits = tally.waits;
    if admitting(t) {
        let s = stretch_of(t);
        let slot = s.slot;
        let start = s.start;
        let past = next(s, until);
        if past < start + slot {
            return tally;
        }
        let last = past - slot;
        let all = admit_all(s, from, last, arrivals, waits);
        return Tally {
            from: last + 1,
            waits: all,
        };
    }
    tally
}

// No event follows: a title that admits boxes goes on admitting them for ever.
pub fn endless(t: Title, arrivals: &[u64], tally: Tally) -> Waits
    requires playing { t.mode ≡ 1 → Playing t }
    requires few { Few (length arrivals.now) tally.waits }
    ensures { result ≡ all_settled t arrivals.now tally }
{
    let from = tally.from;
    let waits = tally.waits;
    if admitting(t) {
        return admit_all(stretch_of(t), from, ASKED_MAX, arrivals, waits);
    }
    waits
}
