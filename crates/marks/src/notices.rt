// A notice in words.

ghost use Rattle.text.specs.Pages.{Puts};
ghost use Rattle.marks.specs.Notices.{act_label, notice_hover};

use clocks::put_clock;
use notice::{Kind, Notice};
use text::page::Page;
use words::put_meaning;

pub fn put_kind(page: &mut Page<'_>, kind: Kind)
    ensures { Puts page.old (act_label kind) page.new }
{
    match kind {
        Kind::Open { count, .. } => {
            page.put(b"open with ");
            page.put_number(count as u64);
        }
        Kind::Change { count } => {
            page.put(b"change to ");
            page.put_number(count as u64);
        }
        Kind::Close => page.put(b"close"),
        Kind::Hold => page.put(b"hold"),
        Kind::Lift => page.put(b"lift"),
        Kind::Skip { count, .. } => {
            page.put(b"skip with ");
            page.put_number(count as u64);
        }
    }
}

pub fn put_notice(page: &mut Page<'_>, n: Notice, answer: u8)
    ensures { Puts page.old (notice_hover n answer) page.new }
{
    let kind = n.kind;
    page.put(b"sequence ");
    page.put_number(n.sequence as u64);
    page.put(b", title ");
    page.put_number(n.title as u64);
    page.put(b", ");
    put_kind(page, kind);
    page.put(b" at ");
    put_clock(page, n.time);
    page.put(b": ");
    put_meaning(page, answer);
}
