// One step of the listing: what stands at a place of the log, what the agent makes of it, and the line that tells it.

ghost use Rattle.std.specs.Prelude.{◌≡◌};
ghost use Rattle.notice.specs.declared.Found.TheVariants as found;
ghost use Rattle.notice.specs.Decode.{read_at};
ghost use Rattle.listing_io.specs.Step.{held_after, Lists};

use super::lines::{put_last, put_line};
use agent::{Agent, heed};
use notice::{Found, Notice, kind_number};
use rules::{DONE, MALFORMED};
use scheduler::held;

// What a step gives back.
#[derive(Clone, Copy)]
pub struct ListedStep {
    pub agent: Agent,
    // where the listing goes on
    pub place: usize,
    // the bytes of the line, at the row's start
    pub size: usize,
    // whether it goes on: not behind the end, nor behind bytes that are no notice
    pub more: bool,
}

// The lanes held: at a notice's time once it is accepted, otherwise at the last accepted event's.
fn held_after(agent: Agent, answer: u8, time: u64) -> u64
    ensures { result ≡ held_after agent answer time }
{
    let s = agent.state;
    if answer == DONE {
        return held(s, time).lanes;
    }
    held(s, s.last).lanes
}

// The step of a notice, after which the log goes on at a place.
fn list_notice(agent: Agent, n: Notice, end: usize, out: &mut [u8]) -> ListedStep
    ensures { Lists agent (found.At n end) end out.old result out.new }
{
    let followed = heed(agent, n);
    let answer = followed.answer;
    let next = followed.agent;
    let held = held_after(next, answer, n.time);
    let kind = n.kind;
    let size = put_line(out, n.sequence, kind_number(kind), n.title, answer, held);
    ListedStep {
        agent: next,
        place: end,
        size,
        more: true,
    }
}

// The step at a place of a log, which its reader reads once.
pub fn list_at(agent: Agent, log: &[u8], place: usize, out: &mut [u8]) -> ListedStep
    ensures { Lists agent (read_at log.now place) place out.old result out.new }
{
    let found = notice::next_in(log, place);
    match found {
        Found::At(n, end) => list_notice(agent, n, end, out),
        Found::End => ListedStep {
            agent,
            place,
            size: 0,
            more: false,
        },
        Found::Malformed => {
            let size = put_last(out, held_after(agent, MALFORMED, 0));
            ListedStep {
                agent,
                place,
                size,
                more: false,
            }
        }
    }
}
