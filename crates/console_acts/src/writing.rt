// The notice of an event, and that which a line writes.

ghost use Rattle.std.specs.Prelude.{◌≡◌};
ghost use Rattle.story.specs.declared.Act.TheVariants.{Opens};
ghost use Rattle.agent.specs.Series.{kind_for, notice_for};
ghost use Rattle.console_acts.specs.Writing.{cut_act, cut_event, written_notice};

use crate::events::written_event;
use console_lines::lines::Line;
use notice::{Kind, Notice};
use scheme::STEADY;
use story::{Act, Event, Film};
use text::numbers::{as_byte, as_four_bytes};

// The kind of an opening's notice, by the scheme of its film.
fn opening_kind(film: Film, count: u64) -> Kind
    ensures { result ≡ kind_for (cut_act (Opens film count)) }
{
    let kind = film.kind;
    if kind == STEADY {
        return Kind::Skip {
            length: as_four_bytes(film.length),
            count: as_byte(count),
        };
    }
    Kind::Open {
        length: as_four_bytes(film.length),
        floor: as_byte(film.floor),
        cap: as_byte(film.cap),
        count: as_byte(count),
    }
}

// The kind of an act's notice.
fn kind_for(act: Act) -> Kind
    ensures { result ≡ kind_for (cut_act act) }
{
    match act {
        Act::Opens { film, count } => opening_kind(film, count),
        Act::Changes { count } => Kind::Change {
            count: as_byte(count),
        },
        Act::Closes => Kind::Close,
        Act::Doors { held } => { if held { Kind::Hold } else { Kind::Lift } }
    }
}

// The notice of an event with a sequence. A number too large for its field is cut, which none of an accepted event is.
pub fn notice_with(sequence: u32, e: Event) -> Notice
    ensures { result ≡ notice_for sequence (cut_event e) }
{
    let act = e.act;
    let kind = kind_for(act);
    Notice {
        sequence,
        title: as_byte(e.title),
        time: e.time,
        kind,
    }
}

pub fn notice_of(line: Line) -> Notice
    ensures { result ≡ written_notice line }
{
    let n = line.numbers;
    notice_with(as_four_bytes(n[0]), written_event(line))
}
