// Lists the notices on standard input, back to back, as a fresh agent hears them (01, "Numbers worked through"): argument POOL.
#![tactic(auto)]

use files::arguments::pool_or;

// 01's pool, where none is given.
const USUAL_POOL: u64 = 8;

fn main(rt: HostRuntime) {
    let Some(pool) = pool_or(&rt, USUAL_POOL, b"listing [POOL] < LOG") else {
        return;
    };
    listing_io::input::list_input(&rt, pool);
}
