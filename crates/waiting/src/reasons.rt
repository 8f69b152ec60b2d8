// Why nobody got in, where the report's numbers alone do not tell: a title that the log never opens.

ghost use Rattle.std.specs.Prelude.{◌≡◌};
ghost use Rattle.waiting.specs.Reasons.{is_never_opened};

use crate::{play, refusal};
use agent_rows::ROW_LENGTH;
use agent_rows::reading::title_at;
use rules::DONE;

// Whether no notice of a log that counts opens a title. A pool, a title or a log that is refused is not asked.
pub fn never_opened(pool: u64, log: &[u8], title: u64) -> bool
    ensures { result ≡ is_never_opened pool log.now title }
{
    let none = [0u64; 1];
    let answer = refusal(pool, title, &none[..0]);
    if answer != DONE {
        return false;
    }
    let mut row = [0; ROW_LENGTH];
    let counted = play(&mut row, pool, log, title, &none[..0]);
    let played = counted.played;
    if played.place < log.len() {
        return false;
    }
    let t = title_at(&row, title);
    let cap = t.film.cap;
    cap == 0
}
