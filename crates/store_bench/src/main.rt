// Times edits and reads of a line store: store_bench STORE PLACE TURNS. The time goes to standard error, a sum of what was read to
// standard output.
#![tactic(auto)]

use anyhow::Context;
use gap_store::GapStore;
use line::{LINE_LIMIT, LineBuffer, LineStore};
use slot_store::SlotStore;
use std::env;
use std::time::Instant;
use vec_store::VecStore;

const LINES: usize = 4000;

// Where the edits are made.
#[derive(Clone, Copy)]
enum Place {
    Front,
    End,
    Clustered,
}

impl From<&str> for Place {
    fn from(name: &str) -> Place {
        match name {
            "front" => Place::Front,
            "end" => Place::End,
            _ => Place::Clustered,
        }
    }
}

impl Place {
    // The line that a turn edits, of so many. An enum is plainer here than closures: the name is matched once either
    // way, and an enum says in its type which places there are.
    fn line(self, turn: usize, count: usize) -> usize {
        match self {
            Place::Front => 0,
            Place::End => count.saturating_sub(1),
            Place::Clustered => (count / 2).saturating_add(turn % 40),
        }
    }
}

fn fill<S: LineStore>(store: &mut S) {
    for at in 0..LINES {
        let _ = store.insert(at, b"draw 00017 reel 3 stop 21 credit 140 bet 5 win 0");
    }
}

// One line more, read, replaced and taken out again; the answer is its length.
fn turn<S: LineStore>(store: &mut S, at: usize) -> usize {
    let mut line: LineBuffer = [0; LINE_LIMIT];
    let _ = store.insert(at, b"draw 00018 reel 3 stop 4");
    let length = store.read(at, &mut line).unwrap_or(0);
    let _ = store.replace(at, b"draw 00018 reel 3 stop 5 credit 135 bet 5 win 10");
    let _ = store.remove(at);
    length
}

fn bench<S: LineStore>(
    rt: &HostRuntime,
    store: &mut S,
    place: Place,
    turns: usize,
) -> anyhow::Result<()> {
    fill(store);
    let start = Instant::now(rt)?;
    let mut sum: usize = 0;
    for i in 0..turns {
        let at = place.line(i, store.count());
        sum = sum.wrapping_add(turn(store, at));
    }
    let time = start.elapsed(rt)?.as_micros();
    eprintln!(rt; "{time}")?;
    let count = store.count();
    println!(rt; "{count} lines, {sum} bytes read")?;
    Ok(())
}

fn run(rt: &HostRuntime) -> anyhow::Result<()> {
    let mut words = env::args(rt)?;
    let _program = words.next();
    let store = words.next().context("no store")?;
    let place = Place::from(words.next().context("no place")?.as_str());
    let turns = words
        .next()
        .context("no number of turns")?
        .parse::<usize>()?;
    // Three types of store under three names: a `dyn` would time its own calls too.
    match store.as_str() {
        "slots" => bench(
            rt,
            &mut SlotStore::new(rt.alloc(), LINES + 1)?,
            place,
            turns,
        ),
        "gap" => bench(rt, &mut GapStore::new(rt.alloc(), 524_288)?, place, turns),
        _ => bench(rt, &mut VecStore::new(rt.alloc(), LINES + 1)?, place, turns),
    }
}

fn main(rt: HostRuntime) -> anyhow::Result<()> {
    run(&rt)
}
