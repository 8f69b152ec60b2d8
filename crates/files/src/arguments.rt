// The arguments of programs: numbers, words and the pool, and what programs over a log have in common, POOL TITLE LOG and a file of the
// program's own. Where they are others than a program takes, one line says what is wrong.

ghost use Rattle.files.specs.Texts.{Tells};

use rules::{POOL_MAX, POOL_MIN, within};
use std::rt::Env;
use streams::usage::{are_right, arg_count, complain, count_is};
use text::bytes::{Sort, run_end};
use text::numbers::spelt;

// Room for the longest argument that the system hands over.
const ARGUMENT_ROOM: usize = 131_072;

// The number that an argument spells, the largest where it is larger.
fn number_given(rt: &HostRuntime, i: usize) -> Option<u64> {
    let mut room = [0u8; ARGUMENT_ROOM];
    let n = rt.arg(i, &mut room).ok()?;
    let word = &room[..n];
    if n == 0 || run_end(word, 0, Sort::Digit) < n {
        return None;
    }
    Some(spelt(word, 0).value)
}

// The same of an argument with a name, by which standard error says that it spells none.
pub fn number_named(rt: &HostRuntime, i: usize, name: &[u8]) -> Option<u64> {
    let number = number_given(rt, i);
    if number.is_none() {
        complain(rt, name, b" is no number");
    }
    number
}

// Whether two texts are the same.
pub fn same(a: &[u8], b: &[u8]) -> bool
    ensures { Tells result a.now b.now }
{
    a == b
}

// Whether an argument is a word.
pub fn is_word(rt: &HostRuntime, i: usize, word: &[u8]) -> bool {
    let mut room = [0u8; 4_096];
    let Ok(n) = rt.arg(i, &mut room) else {
        return false;
    };
    same(&room[..n], word)
}

// The pool and the title that were given, or that standard error says what is wrong. How many arguments there are is tested first, then the
// numbers in their order.
pub fn pool_and_title(rt: &HostRuntime, usage: &[u8]) -> Option<(u64, u64)> {
    if !count_is(rt, 5, usage) {
        return None;
    }
    let pool = number_named(rt, 1, b"POOL")?;
    let title = number_named(rt, 2, b"TITLE")?;
    Some((pool, title))
}

fn complain_of_pool(rt: &HostRuntime, wrong: &[u8]) {
    complain(rt, wrong, b": give the lanes of the pool, 1 to 64");
}

// The pool that an argument names, or that standard error says what is wrong.
pub fn pool_given(rt: &HostRuntime, i: usize) -> Option<u64> {
    let Some(pool) = number_given(rt, i) else {
        complain_of_pool(rt, b"POOL is no number");
        return None;
    };
    if !within(POOL_MIN, POOL_MAX, pool) {
        complain_of_pool(rt, b"POOL is out of range");
        return None;
    }
    Some(pool)
}

// The pool that the only argument names, the usual one without.
pub fn pool_or(rt: &HostRuntime, usual: u64, usage: &[u8]) -> Option<u64> {
    if !are_right(rt, 1, 1, 2, usage) {
        return None;
    }
    if arg_count(rt) < 2 {
        Some(usual)
    } else {
        pool_given(rt, 1)
    }
}
