// A picture's head, with its sheet of classes and a hatching for each title, and its foot.

ghost use Rattle.text.specs.Pages.{Puts};
ghost use Rattle.drawing.specs.Document.{
  sheet_of_lines,
  sheet_of_marks,
  sheet_of_titles,
  sheet_of_lanes,
  sheet,
  hatch_text,
  hatches_text,
  svg_head,
  foot_text,
};
ghost use Rattle.std.specs.Prelude.{◌+◌};
ghost use Rattle.rules.specs.Limits.{id_max};

use crate::pieces::put_field;
use rules::ID_MAX;
use text::page::Page;

// Text and lines.
fn put_sheet_of_lines(page: &mut Page<'_>)
    ensures { Puts page.old sheet_of_lines page.new }
{
    page.put(
        b"svg{max-width:100%;height:auto;background:#fff}\n\
        text{font:12px sans-serif;fill:#222}\n\
        .head{font-size:16px;font-weight:bold}\n\
        .time{text-anchor:middle;font-size:11px}\n\
        .right{text-anchor:end}\n\
        .small{font-size:10px}\n\
        .note{fill:#b00020}\n\
        path{fill:none;stroke:#222}\n\
        .axis{stroke:#222}\n\
        .grid{stroke:#ddd}\n\
        .limit{stroke:#b00020;stroke-dasharray:6 3}\n\
        .plays{stroke:#222;stroke-width:1.5}\n\
        .curve{stroke:#0b3d91;stroke-width:1.5}\n",
    );
}

// Bands, events and refusals.
fn put_sheet_of_marks(page: &mut Page<'_>)
    ensures { Puts page.old sheet_of_marks page.new }
{
    page.put(
        b"rect{fill:#222}\n\
        .b0{fill:#f7f7f7}\n\
        .b1{fill:#efefef}\n\
        .d0{fill:#555;fill-opacity:.45}\n\
        rect[class^='r']{fill:#d00020}\n",
    );
}

// Active lanes and sending lanes of each title.
fn put_sheet_of_titles(page: &mut Page<'_>)
    ensures { Puts page.old sheet_of_titles page.new }
{
    page.put(
        b".t0{fill:#0e6a91}.s0{fill:url(#h0);stroke:#0e6a91}\n\
        .t1{fill:#fe8a84}.s1{fill:url(#h1);stroke:#fe8a84}\n\
        .t2{fill:#0d9971}.s2{fill:url(#h2);stroke:#0d9971}\n\
        .t3{fill:#473b9d}.s3{fill:url(#h3);stroke:#473b9d}\n\
        .t4{fill:#efb448}.s4{fill:url(#h4);stroke:#efb448}\n\
        .t5{fill:#028092}.s5{fill:url(#h5);stroke:#028092}\n\
        .t6{fill:#f765a4}.s6{fill:url(#h6);stroke:#f765a4}\n\
        .t7{fill:#1d5f02}.s7{fill:url(#h7);stroke:#1d5f02}\n\
        .t8{fill:#a6cafd}.s8{fill:url(#h8);stroke:#a6cafd}\n\
        .t9{fill:#b64a1f}.s9{fill:url(#h9);stroke:#b64a1f}\n\
        .t10{fill:#10b5a7}.s10{fill:url(#h10);stroke:#10b5a7}\n\
        .t11{fill:#893799}.s11{fill:url(#h11);stroke:#893799}\n\
        .t12{fill:#9a920e}.s12{fill:url(#h12);stroke:#9a920e}\n\
        .t13{fill:#01485d}.s13{fill:url(#h13);stroke:#01485d}\n\
        .t14{fill:#fe97a3}.s14{fill:url(#h14);stroke:#fe97a3}\n\
        .t15{fill:#059050}.s15{fill:url(#h15);stroke:#059050}\n",
    );
}

// The shades of lanes.
fn put_sheet_of_lanes(page: &mut Page<'_>)
    ensures { Puts page.old sheet_of_lanes page.new }
{
    page.put(
        b".l0{fill:#043875}.l1{fill:#eb734a}.l2{fill:#047339}.l3{fill:#e3b543}.l4{fill:#870368}.l5{fill:#15b0c9}\n\
        .l6{fill:#cc3e49}.l7{fill:#bdd75d}.l8{fill:#095b7d}.l9{fill:#fe86a5}.l10{fill:#be6d17}.l11{fill:#14f0e6}\n",
    );
}

fn put_sheet(page: &mut Page<'_>)
    ensures { Puts page.old sheet page.new }
{
    page.put(b"<style>\n");
    put_sheet_of_lines(page);
    put_sheet_of_marks(page);
    put_sheet_of_titles(page);
    put_sheet_of_lanes(page);
    page.put(b"</style>\n");
}

// The hatching of a title's id.
fn put_hatch(page: &mut Page<'_>, id: u64)
    ensures { Puts page.old (hatch_text id) page.new }
{
    page.put(b"<pattern id='h");
    page.put_number(id);
    page.put(
        b"' width='6' height='6' patternUnits='userSpaceOnUse' patternTransform='rotate(45)'><rect class='t",
    );
    page.put_number(id);
    page.put(b"' width='3' height='6'/></pattern>\n");
}

fn put_hatches(page: &mut Page<'_>)
    ensures { Puts page.old (hatches_text (id_max + 1)) page.new }
{
    for id in 0..ID_MAX + 1 {
        put_hatch(page, id);
    }
}

// The head of a picture of a width and a height.
pub fn put_head(page: &mut Page<'_>, width: u64, height: u64)
    ensures { Puts page.old (svg_head width height) page.new }
{
    put_field(
        page,
        b"<svg xmlns='http://www.w3.org/2000/svg' viewBox='0 0 ",
        width,
    );
    put_field(page, b" ", height);
    put_field(page, b"' width='", width);
    put_field(page, b"' height='", height);
    page.put(b"'>\n");
    put_sheet(page);
    put_hatches(page);
}

pub fn put_foot(page: &mut Page<'_>)
    ensures { Puts page.old foot_text page.new }
{
    page.put(b"</svg>\n");
}
