// A log of notices, played read by read into a fresh agent that is kept in a row and changed in place, and what each read does to one
// title. These functions are for the crates above, and say in a `requires` what they build on.
#![tactic(auto)]

ghost use Rattle.std.specs.Prelude.{◌≤◌, ◌≡◌, true, length};
ghost use Rattle.rules.specs.Limits.{within, pool_min, pool_max, id_max};
ghost use Rattle.notice.specs.Decode.{read_at};
ghost use Rattle.agent_rows.specs.Layout.{row_length};
ghost use Rattle.row_calls.specs.inner.Steps.{Tested};
ghost use Rattle.logs.specs.Reading.{Unplayed, none_read_yet, ReadsLog, Meets};

use agent_rows::reading::title_at;
use notice::{Found, next_in};
use row_calls::notices::heed_tested;
use row_calls::starting::fresh;
use rules::{DONE, MALFORMED};
use story::Title;

// A log as far as it was played into the agent of a row: the place of the next notice, and whether one may follow.
// kept: an Option would be no plainer, as the place is asked for at the end too, where `report_of` tells a cut log by it.
#[derive(Clone, Copy)]
pub struct PlayedLog {
    pub place: usize,
    pub more: bool,
}

// One read more: the log as far as it is then played, what the agent answered, and of a notice its title and its time.
#[derive(Clone, Copy)]
pub struct ReadOn {
    pub played: PlayedLog,
    pub answer: u8,
    pub title: u64,
    pub time: u64,
}

// What one read more does to a title: whether it was an accepted event of its own, the title as it stood before, and the time.
#[derive(Clone, Copy)]
pub struct OwnRead {
    pub played: PlayedLog,
    pub own: bool,
    pub before: Title,
    pub time: u64,
}

// A log of which nothing is played, and a row with a fresh agent of a pool.
pub fn not_begun(row: &mut [u64], pool: u64) -> PlayedLog
    requires row_len { length row.old ≡ row_length }
    requires pool_value { within pool_min pool_max pool ≡ true }
    ensures { Unplayed pool row.new result }
{
    fresh(row, pool);
    PlayedLog {
        place: 0,
        more: true,
    }
}

// No notice is there, which is answered as malformed.
fn nothing_read(place: usize) -> ReadOn
    ensures { result ≡ none_read_yet place }
{
    ReadOn {
        played: PlayedLog { place, more: false },
        answer: MALFORMED,
        title: 0,
        time: 0,
    }
}

// Past the notice at a place, and no further at the log's end or where bytes are no notice.
pub fn read_on(row: &mut [u64], place: usize, log: &[u8]) -> ReadOn
    requires { Tested row.old }
    ensures { ReadsLog row.old place (read_at log.now place) result row.new }
{
    let found = next_in(log, place);
    match found {
        Found::At(n, end) => {
            let answer = heed_tested(row, n);
            ReadOn {
                played: PlayedLog {
                    place: end,
                    more: true,
                },
                answer,
                title: n.title as u64,
                time: n.time,
            }
        }
        Found::End | Found::Malformed => nothing_read(place),
    }
}

// The same, as a title meets it.
pub fn read_for(row: &mut [u64], place: usize, log: &[u8], title: u64) -> OwnRead
    requires tested { Tested row.old }
    requires title_le_id_max { title ≤ id_max }
    ensures { Meets row.old place title (read_at log.now place) result row.new }
{
    let before = title_at(row, title);
    let read = read_on(row, place, log);
    OwnRead {
        played: read.played,
        own: read.answer == DONE && read.title == title,
        before,
        time: read.time,
    }
}
