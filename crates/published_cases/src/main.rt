// Figures that others published, beside what the product computes: source 000 is the paper of the scheme itself, source 002
// has its transitions in figures and the scheme of a skip-forward title, source 004 compares schemes of its kind. What is
// expected was taken from the papers' text by hand, at the place that the row names. Where a row says "derived" it was worked
// out from the paper's formulas or tables, since the drawing is not in the text. A time is rounded to the nearest unit that the
// row names.
#![tactic(auto)]

use figures::holding::holding_tenths;
use figures::rows::agree;
use figures::segments::{found_in, on_channel, segment_of, taken_in, unbuffered};
use figures::steady::{on_lane, taken_from};
use figures::times::{average_wait, increase, longest_slot, slot_ms, slot_seconds, slot_tenths};
use figures::transitions::{fourth_lane, sent};
use rules::COUNT_MAX;
use std::fmt::Display;

// The numbers that a row has room for.
const ROW_MOST: usize = 16;

// What can't be written is left out.
fn write<D: Display + Drop>(rt: &HostRuntime, shown: D) {
    let _ = rt.print(shown);
}

// A word and a row of numbers, on a line.
fn print_row(rt: &HostRuntime, word: &str, row: &[u64]) {
    write(rt, word);
    for n in row {
        write(rt, format_args!(" {n}"));
    }
    write(rt, "\n");
}

// What a row is about, what the product computes, what is expected, and whether they agree.
fn show(rt: &HostRuntime, what: &str, computed: &[u64], expected: &[u64]) {
    write(rt, what);
    write(rt, "\n");
    print_row(rt, "  computed", computed);
    print_row(rt, "  expected", expected);
    if agree(computed, expected) {
        write(rt, "  agree\n");
    } else {
        write(rt, "  DIFFER\n");
    }
}

// The same of a row that computes a figure of each of some places, as many as it has room for.
fn show_each<P: Copy, F: Fn(P) -> u64>(
    rt: &HostRuntime,
    what: &str,
    places: &[P],
    figure: F,
    expected: &[u64],
)
    requires { F.IsAlwaysCallable figure }
{
    let mut computed = [0u64; ROW_MOST];
    for (number, place) in computed.iter_mut().zip(places) {
        *number = figure(*place);
    }
    show(rt, what, &computed[..places.len().min(ROW_MOST)], expected);
}

// A number that lies outside what its figure is defined for, as no row's does, is taken as the nearest inside.

// Of a count, at a floor: the wait that padding adds.
fn padded(floor: u64, count: u64) -> u64 {
    let f = floor.clamp(1, COUNT_MAX);
    increase(f, count.clamp(f, COUNT_MAX))
}

// How long a channel that is given back is held.
fn held(floor: u64, count: u64) -> u64 {
    let f = floor.clamp(1, COUNT_MAX);
    holding_tenths(f, count.clamp(f, COUNT_MAX))
}

// The longest wait.
fn slot(floor: u64, count: u64) -> u64 {
    let f = floor.clamp(1, COUNT_MAX);
    slot_seconds(f, count.clamp(f, COUNT_MAX))
}

// Of a cell: the segment of so many channels, cap 4, that holds it.
fn segment(count: u64, cell: u64) -> u64 {
    segment_of(4, count.min(4), cell.min(15))
}

// Of a channel among so many, cap 4: its segment at a tick.
fn carried(count: u64, tick: u64, channel: u64) -> u64 {
    let k = count.clamp(1, 4);
    on_channel(k, 4, k, channel.min(k - 1), tick.min(15))
}

// Of a tick: in which segment of so many channels what a channel of 2 carries goes out so much later.
fn found(other: u64, channel: u64, later: u64, tick: u64) -> u64 {
    let at = tick.min(15);
    found_in(other.clamp(2, 4), channel.min(1), at, at + later.min(15))
}

// Of a segment: the slot in which the box of figure 1 takes it.
fn taken(segment: u64) -> u64 {
    taken_in(segment.clamp(1, 15) as usize)
}

// Of a start: whether it needs no buffer.
fn needless(start: u64) -> u64 {
    unbuffered(start.min(8))
}

// Of a slot: what 4 channels have and 3 have not.
fn fourth(tick: u64) -> u64 {
    fourth_lane(tick.min(15))
}

// Section II-A: with 4 channels, what the box that starts at t0 takes in its first three slots, channel by channel; it is done
// with C0 after one slot and with C1 after two.
fn figure_1_channels(rt: &HostRuntime) {
    show_each(
        rt,
        "source 000, figure 1: segments in the first slot, C0 to C3",
        &[0, 1, 2, 3],
        |channel| carried(4, 0, channel),
        &[1, 2, 4, 8],
    );
    show_each(
        rt,
        "source 000, figure 1: in the second slot, C1 to C3, and in the third, C2 and C3",
        &[(1, 1), (1, 2), (1, 3), (2, 2), (2, 3)],
        |(tick, channel)| carried(4, tick, channel),
        &[3, 5, 9, 6, 10],
    );
}

// The same by the box plan: the slot, from 0, in which each of these nine segments is taken.
fn figure_1_plan(rt: &HostRuntime) {
    show_each(
        rt,
        "source 000, figure 1: slots in which the plan takes segments 1 2 4 8, 3 5 9, 6 10",
        &[1, 2, 4, 8, 3, 5, 9, 6, 10],
        taken,
        &[0, 0, 0, 0, 1, 1, 1, 2, 2],
    );
}

// Section II-A: one start in each 2^(k-1) slots needs no buffer, since each segment is on a channel just when it plays. This is
// of the channels; the plan takes what comes first. The text says that it is one of eight; which one is derived.
fn figure_1_buffer(rt: &HostRuntime) {
    show_each(
        rt,
        "source 000, figure 1: which of the starts at slots 0 to 7 needs no buffer",
        &[0, 1, 2, 3, 4, 5, 6, 7],
        needless,
        &[0, 1, 0, 0, 0, 0, 0, 0],
    );
}

// Section III-A: 1.43, 1.00 and 0.56 minutes with floor 2 and 3, 4 and 5 channels.
fn padding(rt: &HostRuntime) {
    show(
        rt,
        "source 000, III-A: increase of the average wait by padding, floor 2, k 3 to 5, 1/100 minute",
        &[increase(2, 3), increase(2, 4), increase(2, 5)],
        &[143, 100, 56],
    );
}

// Figure 2 is a drawing; its values by the formula above it, whose numerator should read 2^k - 2^floor.
fn figure_2(rt: &HostRuntime) {
    show_each(
        rt,
        "source 000, figure 2, derived: floor 2, k 2 to 10, 1/100 minute",
        &[2, 3, 4, 5, 6, 7, 8, 9, 10],
        |k| padded(2, k),
        &[0, 143, 100, 56, 30, 15, 8, 4, 2],
    );
    show_each(
        rt,
        "source 000, figure 2, derived: floor 3, k 3 to 10, 1/100 minute",
        &[3, 4, 5, 6, 7, 8, 9, 10],
        |k| padded(3, k),
        &[0, 29, 21, 12, 6, 3, 2, 1],
    );
    show_each(
        rt,
        "source 000, figure 2, derived: floor 4, k 4 to 10, 1/100 minute",
        &[4, 5, 6, 7, 8, 9, 10],
        |k| padded(4, k),
        &[0, 6, 5, 3, 1, 1, 0],
    );
    show_each(
        rt,
        "source 000, figure 2, derived: floor 5, k 5 to 10, 1/100 minute",
        &[5, 6, 7, 8, 9, 10],
        |k| padded(5, k),
        &[0, 2, 1, 1, 0, 0],
    );
}

// Lemma 1 and figure 3, floor 2: a segment of 2 channels is two of 3 and four of 4. By the cells, of which cap 4 has 16.
fn figure_3(rt: &HostRuntime) {
    show_each(
        rt,
        "source 000, figure 3: segments of 3 channels that make segments 1 to 4 of 2 channels",
        &[0, 3, 4, 7, 8, 11, 12, 15],
        |cell| segment(3, cell),
        &[1, 2, 3, 4, 5, 6, 7, 8],
    );
    show_each(
        rt,
        "source 000, figure 3: first and last segments of 4 channels that make segments 1 to 4 of 2 channels",
        &[0, 3, 4, 7, 8, 11, 12, 15],
        |cell| segment(4, cell),
        &[1, 4, 5, 8, 9, 12, 13, 16],
    );
    show_each(
        rt,
        "source 000, figure 3: segments of 2 channels that hold those",
        &[0, 3, 4, 7, 8, 11, 12, 15],
        |cell| segment(2, cell),
        &[1, 1, 2, 2, 3, 3, 4, 4],
    );
    show_each(
        rt,
        "source 000, figure 3: segments of 3 channels that hold segments 1 to 4 and 13 to 16 of 4 channels",
        &[0, 1, 2, 3, 12, 13, 14, 15],
        |cell| segment(3, cell),
        &[1, 1, 2, 2, 7, 7, 8, 8],
    );
}

// Figure 4(b), after Corollary 1: from t1, the second slot of 2 channels, to t2. The text prints S2 of 2 channels for S3 (twice),
// S3 of 3 for S5, and S5 of 4 for S9; by Lemma 1, which it cites, and by its own equations these are the right ones.
fn figure_4b_first(rt: &HostRuntime) {
    show(
        rt,
        "source 000, figure 4(b), t1 to t2: segments of 2 channels",
        &[on_channel(2, 4, 2, 0, 4), on_channel(2, 4, 2, 1, 4)],
        &[1, 3],
    );
    show_each(
        rt,
        "source 000, figure 4(b), t1 to t2: found in these of 3 channels, half slot by half slot",
        &[(0, 4), (0, 6), (1, 4), (1, 6)],
        |(channel, tick)| found(3, channel, 0, tick),
        &[1, 2, 5, 6],
    );
}

fn figure_4b_second(rt: &HostRuntime) {
    show_each(
        rt,
        "source 000, figure 4(b), t1 to t2: and in these of 4 channels, quarter by quarter",
        &[
            (0, 4),
            (0, 5),
            (0, 6),
            (0, 7),
            (1, 4),
            (1, 5),
            (1, 6),
            (1, 7),
        ],
        |(channel, tick)| found(4, channel, 0, tick),
        &[1, 2, 3, 4, 9, 10, 11, 12],
    );
}

// The same holds "similarly" from t3 to t4, which the text does not place: the next slot of 2 channels, by Lemma 1.
fn figure_4b_third(rt: &HostRuntime) {
    show(
        rt,
        "source 000, figure 4(b), t3 to t4, derived: segments of 2 channels, then of 3 in which they are found",
        &[
            carried(2, 8, 0),
            carried(2, 8, 1),
            found(3, 0, 0, 8),
            found(3, 0, 0, 10),
            found(3, 1, 0, 8),
            found(3, 1, 0, 10),
        ],
        &[1, 2, 1, 2, 3, 4],
    );
    show_each(
        rt,
        "source 000, figure 4(b), t3 to t4, derived: and of 4 channels",
        &[
            (0, 8),
            (0, 9),
            (0, 10),
            (0, 11),
            (1, 8),
            (1, 9),
            (1, 10),
            (1, 11),
        ],
        |(channel, tick)| found(4, channel, 0, tick),
        &[1, 2, 3, 4, 5, 6, 7, 8],
    );
}

// Figure 4(a): without the shift, S3 of 2 channels is found neither with 3 channels nor with 4. What k channels carry unshifted
// is what they carry shifted 2^(k-2) - 1 slots later: 2 ticks for 3 channels, 3 ticks for 4. 0 is "not found".
fn figure_4a(rt: &HostRuntime) {
    show_each(
        rt,
        "source 000, figure 4(a): S3 of 2 channels, in 3 and in 4 channels that are not shifted",
        &[
            (3, 2, 4),
            (3, 2, 5),
            (3, 2, 6),
            (3, 2, 7),
            (4, 3, 4),
            (4, 3, 5),
            (4, 3, 6),
            (4, 3, 7),
        ],
        |(other, later, tick)| found(other, 1, later, tick),
        &[0, 0, 0, 0, 0, 0, 0, 0],
    );
}

fn below(a: u64, b: u64) -> u64 {
    u64::from(a < b)
}

// Section II-A: under 4 minutes with 5 channels and under 2 with 6, here with floor 5; section II-B: 8.57 and 4 minutes on
// average at floors 3 and 4.
fn waiting(rt: &HostRuntime) {
    show(
        rt,
        "source 000, II-A: the longest wait with 5 and 6 channels is below 4 and 2 minutes, 1 is yes",
        &[below(slot_ms(5, 5), 240_000), below(slot_ms(5, 6), 120_000)],
        &[1, 1],
    );
    show(
        rt,
        "source 000, II-B: average wait at floors 3 and 4, 1/100 minute",
        &[average_wait(3, 3), average_wait(4, 4)],
        &[857, 400],
    );
}

// Figure 6 is a drawing; by Definition 3 for floor 2, what 4 channels carry and 3 do not, slot by slot.
fn figure_6a(rt: &HostRuntime) {
    show_each(
        rt,
        "source 000, figure 6(a), derived: segments that 4 channels have and 3 have not, from slot 4",
        &[4, 5, 6, 7, 8, 9, 10, 11],
        fourth,
        &[3, 1, 7, 1, 3, 1, 15, 1],
    );
}

// By Definition 4 with t at slot 4, S3, S7 and S15 are left of these, at slots 4, 6 and 10; by Definition 5 they are packed. S15 is
// padding, which is owed to nobody and not sent. 99 is a lane that is released.
fn figure_6c(rt: &HostRuntime) {
    show_each(
        rt,
        "source 000, figure 6(c), derived: what the fourth lane sends from slot 4 on, after 4 channels went to 3",
        &[4, 5, 6, 7],
        |time| sent(3, 3, time),
        &[3, 7, 99, 99],
    );
}

// Figure 7 is a drawing; by the same definitions from 4 channels to 2, the third lane has S3 and S7 of 3 channels left, which are
// S5, S6 and S13, S14 of 4. S13 to S16 are padding.
fn figure_7(rt: &HostRuntime) {
    show_each(
        rt,
        "source 000, figure 7, derived: what the fourth and the third lane send from slot 4 on, after 4 channels went to 2",
        &[
            (3, 4),
            (3, 5),
            (3, 6),
            (3, 7),
            (2, 4),
            (2, 5),
            (2, 6),
            (2, 7),
            (2, 8),
        ],
        |(lane, time)| sent(2, lane, time),
        &[3, 7, 99, 99, 5, 6, 99, 99, 99],
    );
}

// Table 3.4: how long a channel that is given back is held, the longest over all drop moments, for each base number of channels.
fn table_3_4(rt: &HostRuntime) {
    show_each(
        rt,
        "source 002, table 3.4, base 2: held after 3 went to 2, up to 7 to 6, 1/10 minute",
        &[3, 4, 5, 6, 7],
        |k| held(2, k),
        &[200, 200, 150, 100, 63],
    );
    show_each(
        rt,
        "source 002, table 3.4, base 3: held after 4 went to 3, up to 7 to 6, 1/10 minute",
        &[4, 5, 6, 7],
        |k| held(3, k),
        &[171, 129, 86, 54],
    );
    show_each(
        rt,
        "source 002, table 3.4, base 4: held after 5 went to 4, up to 7 to 6, 1/10 minute",
        &[5, 6, 7],
        |k| held(4, k),
        &[120, 80, 50],
    );
    show_each(
        rt,
        "source 002, table 3.4, base 5: held after 6 went to 5 and 7 to 6, 1/10 minute",
        &[6, 7],
        |k| held(5, k),
        &[77, 48],
    );
}

// A skip-forward title with 4 channels: the block on each in slots t0 to t15.
fn figure_3_5b(rt: &HostRuntime) {
    show(
        rt,
        "source 002, figure 3.5b: blocks on channel 0 of 4, t0 to t15",
        &on_lane(4, 0),
        &[1, 1, 1, 1, 1, 1, 1, 1, 1, 1, 1, 1, 1, 1, 1, 1],
    );
    show(
        rt,
        "source 002, figure 3.5b: on channel 1",
        &on_lane(4, 1),
        &[2, 2, 2, 2, 2, 2, 2, 2, 2, 2, 2, 2, 2, 2, 2, 2],
    );
    show(
        rt,
        "source 002, figure 3.5b: on channel 2",
        &on_lane(4, 2),
        &[3, 4, 3, 4, 3, 4, 3, 4, 3, 4, 3, 4, 3, 4, 3, 4],
    );
    show(
        rt,
        "source 002, figure 3.5b: on channel 3",
        &on_lane(4, 3),
        &[5, 6, 7, 8, 5, 6, 7, 8, 5, 6, 7, 8, 5, 6, 7, 8],
    );
}

// The same with 5 channels.
fn figure_3_14b(rt: &HostRuntime) {
    show(
        rt,
        "source 002, figure 3.14b: blocks on channel 0 of 5, t0 to t15",
        &on_lane(5, 0),
        &[1, 1, 1, 1, 1, 1, 1, 1, 1, 1, 1, 1, 1, 1, 1, 1],
    );
    show(
        rt,
        "source 002, figure 3.14b: on channel 1",
        &on_lane(5, 1),
        &[2, 2, 2, 2, 2, 2, 2, 2, 2, 2, 2, 2, 2, 2, 2, 2],
    );
    show(
        rt,
        "source 002, figure 3.14b: on channel 2",
        &on_lane(5, 2),
        &[3, 4, 3, 4, 3, 4, 3, 4, 3, 4, 3, 4, 3, 4, 3, 4],
    );
    show(
        rt,
        "source 002, figure 3.14b: on channel 3",
        &on_lane(5, 3),
        &[5, 6, 7, 8, 5, 6, 7, 8, 5, 6, 7, 8, 5, 6, 7, 8],
    );
    show(
        rt,
        "source 002, figure 3.14b: on channel 4",
        &on_lane(5, 4),
        &[9, 10, 11, 12, 13, 14, 15, 16, 9, 10, 11, 12, 13, 14, 15, 16],
    );
}

// A box of figure 3.5b takes each block at its first occurrence. The shading of figure 3.6a is not in the text; which slots
// these are is derived from the table.
fn figure_3_6a(rt: &HostRuntime) {
    show(
        rt,
        "source 002, figure 3.6a, derived: slots after a start at t0 in which blocks 1 to 8 of 4 channels are taken",
        &taken_from(0),
        &[0, 0, 0, 1, 0, 1, 2, 3],
    );
    show(
        rt,
        "source 002, figure 3.6a, derived: after a start at t1",
        &taken_from(1),
        &[0, 0, 1, 0, 3, 0, 1, 2],
    );
    show(
        rt,
        "source 002, figure 3.6a, derived: after a start at t2",
        &taken_from(2),
        &[0, 0, 0, 1, 2, 3, 0, 1],
    );
    show(
        rt,
        "source 002, figure 3.6a, derived: after a start at t3",
        &taken_from(3),
        &[0, 0, 1, 0, 1, 2, 3, 0],
    );
}

// Table II, 120 minutes: the row SSB has the numbers of floor 2.
fn table_2_ssb(rt: &HostRuntime) {
    show_each(
        rt,
        "source 004, table II, SSB: floor 2, k 2 to 9, 1/100 second",
        &[2, 3, 4, 5, 6, 7, 8, 9],
        |k| slot(2, k),
        &[
            240_000, 120_000, 60_000, 30_000, 15_000, 7_500, 3_750, 1_875,
        ],
    );
}

// The row SFB is this scheme at floor 3; its first number, 1028.6, has one digit behind the point.
fn table_2_sfb(rt: &HostRuntime) {
    show(
        rt,
        "source 004, table II, SFB: floor 3, k 3, 1/10 second",
        &[slot_tenths(3, 3)],
        &[10_286],
    );
    show_each(
        rt,
        "source 004, table II, SFB: floor 3, k 4 to 9, 1/100 second",
        &[4, 5, 6, 7, 8, 9],
        |k| slot(3, k),
        &[51_429, 25_714, 12_857, 6_429, 3_214, 1_607],
    );
}

// The row that is printed SEB is the same at floor 4.
fn table_2_seb(rt: &HostRuntime) {
    show_each(
        rt,
        "source 004, table II, SEB: floor 4, k 4 to 9, 1/100 second",
        &[4, 5, 6, 7, 8, 9],
        |k| slot(4, k),
        &[48_000, 24_000, 12_000, 6_000, 3_000, 1_500],
    );
}

// Nobody published these: the longest wait of the longest film, at the largest cap of 01 and at that of 02's request 10,
// worked out by hand from 01's rule of the tick.
fn longest_film(rt: &HostRuntime) {
    show(
        rt,
        "derived: a film of 240 minutes, floor 2 to 5, cap and k 10, ms",
        &[
            longest_slot(2, 10),
            longest_slot(3, 10),
            longest_slot(4, 10),
            longest_slot(5, 10),
        ],
        &[18_750, 16_072, 15_000, 14_517],
    );
    show(
        rt,
        "derived: the same, cap and k 12, ms",
        &[
            longest_slot(2, 12),
            longest_slot(3, 12),
            longest_slot(4, 12),
            longest_slot(5, 12),
        ],
        &[4_688, 4_018, 3_750, 3_630],
    );
}

fn main(rt: HostRuntime) {
    figure_1_channels(&rt);
    figure_1_plan(&rt);
    figure_1_buffer(&rt);
    padding(&rt);
    figure_2(&rt);
    figure_3(&rt);
    figure_4b_first(&rt);
    figure_4b_second(&rt);
    figure_4b_third(&rt);
    figure_4a(&rt);
    waiting(&rt);
    figure_6a(&rt);
    figure_6c(&rt);
    figure_7(&rt);
    table_3_4(&rt);
    figure_3_5b(&rt);
    figure_3_14b(&rt);
    figure_3_6a(&rt);
    table_2_ssb(&rt);
    table_2_sfb(&rt);
    table_2_seb(&rt);
    longest_film(&rt);
}
