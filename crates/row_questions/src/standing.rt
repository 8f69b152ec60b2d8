// The state of a row by value, for the calls that read a state as a whole.

ghost use Rattle.std.specs.Prelude.{◌≡◌, true, length};
ghost use Rattle.rules.specs.Refusals.{pick};
ghost use Rattle.agent.specs.Turns.{fresh_agent};
ghost use Rattle.agent_rows.specs.Layout.{row_length};
ghost use Rattle.agent_rows.specs.Packed.{unpacked, row_sound};
ghost use Rattle.row_questions.specs.Questions.{pool_in, state_in, agent_in};

use agent::{Agent, fresh_agent};
use agent_rows::reading::{title_at, title_from};
use agent_rows::{
    LAST_AT, POOL_AT, ROW_LENGTH, ROW_VERSION, SEQUENCE_AT, SEQUENCE_END, TITLES_AT, VERSION_AT,
};
use rules::{POOL_MAX, TITLES_MAX};
use story::{State, Title};

// Whether a row is of this layout.
fn is_sound(row: &[u64]) -> bool
    requires { length row.now ≡ row_length }
    ensures { result ≡ row_sound row.now }
{
    row[VERSION_AT] == ROW_VERSION && row[SEQUENCE_AT] < SEQUENCE_END
}

// A row's pool; one out of limits where the row is not of this layout.
fn pool_in(row: &[u64]) -> u64
    requires { length row.now ≡ row_length }
    ensures { result ≡ pool_in row.now }
{
    if is_sound(row) {
        return row[POOL_AT];
    }
    POOL_MAX + 1
}

// The titles that a row holds.
fn titles_in(row: &[u64]) -> [Title; TITLES_MAX]
    requires { length row.now ≡ row_length }
    ensures { result ≡ (unpacked row.now).state.titles }
{
    let first = title_from(row, TITLES_AT);
    let mut titles = [first; TITLES_MAX];
    for (i, title) in titles.iter_mut().enumerate() {
        *title = title_at(row, i as u64);
    }
    titles
}

// The state that a row stands for.
pub fn state_in(row: &[u64]) -> State
    requires { length row.now ≡ row_length }
    ensures { result ≡ state_in row.now }
{
    State {
        pool: pool_in(row),
        last: row[LAST_AT],
        titles: titles_in(row),
    }
}

// The sequence of a sound row, which fits 32 bits.
fn sequence_in(row: &[u64]) -> u32
    requires row_len { length row.now ≡ row_length }
    requires row_value { row_sound row.now ≡ true }
    ensures { result ≡ (unpacked row.now).sequence }
{
    row[SEQUENCE_AT] as u32
}

// The agent of a row that is sound.
fn sound_agent(row: &[u64]) -> Agent
    requires row_len { length row.now ≡ row_length }
    requires row_value { row_sound row.now ≡ true }
    ensures { result ≡ unpacked row.now }
{
    Agent {
        sequence: sequence_in(row),
        state: State {
            pool: row[POOL_AT],
            last: row[LAST_AT],
            titles: titles_in(row),
        },
    }
}

// The agent of a row of that length; one of no lanes where it is not sound.
fn long_agent(row: &[u64]) -> Agent
    requires { length row.now ≡ row_length }
    ensures { result ≡ pick (row_sound row.now) (unpacked row.now) (fresh_agent 0) }
{
    if is_sound(row) {
        return sound_agent(row);
    }
    fresh_agent(0).agent
}

// The agent that a row stands for; one of no lanes where the row has another length or is not sound.
pub fn agent_in(row: &[u64]) -> Agent
    ensures { result ≡ agent_in row.now }
{
    if row.len() == ROW_LENGTH {
        return long_agent(row);
    }
    fresh_agent(0).agent
}
