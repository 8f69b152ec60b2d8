// What is wrong with a line, in words, and help.

ghost use Rattle.std.specs.Prelude.{◌≡◌};
ghost use Rattle.text.specs.Pages.{Puts};
ghost use Rattle.console_answers.specs.Faults.{fault_words, usage_of, fault_text, help_text, from_one};

use console_commands::commands;
use text::page::Page;
use words::lines::put_line;

// What is wrong with a line, each the line of its number, of which 0 is none.
fn fault_words(page: &mut Page<'_>, fault: u8)
    ensures { Puts page.old (fault_words fault) page.new }
{
    let words = b"\n\
        line longer than 4095 bytes\n\
        unknown word\n\
        too few numbers\n\
        too many numbers\n\
        not a digit\n\
        number too large\n\
        odd count of hexadecimal digits\n\
        not a hexadecimal digit\n\
        more than 32 ids\n\
        more than 17 titles\n\
        more than 4096 places\n\
        not a time\n";
    put_line(page, words, fault);
}

// A place of a line, counted from 1.
fn from_one(place: usize) -> u64
    ensures { result ≡ from_one place }
{
    place.saturating_add(1) as u64
}

// How a command is written, each the line of its number, of which that of no command leads to help.
pub fn put_usage(page: &mut Page<'_>, command: u8)
    ensures { Puts page.old (usage_of command) page.new }
{
    let words = b"help lists the commands\n\
        fresh POOL\n\
        open ID TIME LENGTH FLOOR CAP COUNT\n\
        change ID TIME COUNT\n\
        close ID TIME\n\
        hold ID TIME\n\
        lift ID TIME\n\
        skip ID TIME LENGTH COUNT\n\
        lane ID LANE TIME\n\
        status TIME ID ..\n\
        plan FLOOR CAP COUNT ARRIVAL [PLACES]\n\
        share POOL RATE LENGTH FLOOR CAP ..\n\
        read HEX\n\
        notice HEX\n\
        romlane ID LANE TIME\n\
        romplan FLOOR CAP COUNT ARRIVAL [PLACES]\n\
        planner TIME ROOM RATE ..\n\
        skipplan COUNT ARRIVAL [PLACES]\n\
        write SEQ open|change|close|hold|lift|skip ID TIME ..\n\
        help\n\
        write SEQ open ID TIME LENGTH FLOOR CAP COUNT\n\
        write SEQ change ID TIME COUNT\n\
        write SEQ close ID TIME\n\
        write SEQ hold ID TIME\n\
        write SEQ lift ID TIME\n\
        write SEQ skip ID TIME LENGTH COUNT\n\
        when ID TIME COUNT\n\
        balance TIME ID RATE ..\n\
        titles TIME\n\
        lanes ID TIME TICKS\n\
        quit\n\
        draw\n\
        when ID TIME close|hold|lift\n\
        when ID TIME close|hold|lift\n\
        when ID TIME close|hold|lift\n";
    put_line(page, words, command);
}

// What is wrong with a line, at which of its bytes, and how its command is written.
pub fn put_fault(page: &mut Page<'_>, fault: u8, place: usize, command: u8)
    ensures { Puts page.old (fault_text fault place command) page.new }
{
    page.put(b"? ");
    fault_words(page, fault);
    page.put(b" at byte ");
    page.put_number(from_one(place));
    page.put(b": ");
    put_usage(page, command);
}

// The commands as help lists them.
const LISTED: usize = 31;

static HELP_ORDER: [u8; LISTED] = [
    commands::FRESH,
    commands::OPEN,
    commands::CHANGE,
    commands::CLOSE,
    commands::HOLD,
    commands::LIFT,
    commands::SKIP,
    commands::LANE,
    commands::STATUS,
    commands::PLAN,
    commands::SHARE,
    commands::ROM_LANE,
    commands::ROM_PLAN,
    commands::PLANNER,
    commands::SKIP_PLAN,
    commands::WRITE_OPEN,
    commands::WRITE_CHANGE,
    commands::WRITE_CLOSE,
    commands::WRITE_HOLD,
    commands::WRITE_LIFT,
    commands::WRITE_SKIP,
    commands::READ,
    commands::NOTICE,
    commands::WHEN,
    commands::WHEN_CLOSE,
    commands::BALANCE,
    commands::TITLES,
    commands::LANES,
    commands::DRAW,
    commands::QUIT,
    commands::HELP,
];

// The commands, a line each.
pub fn put_help(page: &mut Page<'_>)
    ensures { Puts page.old help_text page.new }
{
    put_usage(page, HELP_ORDER[0]);
    for command in &HELP_ORDER[1..] {
        page.put(b"\n");
        put_usage(page, *command);
    }
}
