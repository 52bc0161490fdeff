// Formats a log into pages and prints them with the steps that they took.
#![tactic(auto)]

use anyhow::anyhow;
use engine::Engine;
use failure::Failure;
use formatting::{Printed, next_page};
use line::LineStore;
use log_input::{load_lines, split_lines};
use numberer::Numberer;
use page_maker::first_position;
use page_rule::BODY_BYTES;
use report::print_page;
use slot_store::SlotStore;
use std::io::{Read, Write};
use std::{env, fs};

mod failure;

// The most pages of a formatting.
const PAGE_LIMIT: u16 = 256;

// The slots of the store that takes the log.
const SLOTS: usize = 4096;

const HELP: &str = "\
usage: protocol ENGINE [FILE]

Formats a log into pages of 40 rows of 72 columns and prints each page as it is made.

ENGINE   number: each line as it came, with the turn and stop that its number means
FILE     the log; standard input where there is none

A log that is refused ends with a line `refused N V ..` and status 1.

example: protocol number examples/morning.log";

// What the program was asked to do.
#[derive(Drop)]
enum Command {
    Help,
    Number(Option<String>),
}

fn parse_words(rt: &HostRuntime) -> anyhow::Result<Command> {
    let mut words = env::args(rt)?;
    let _program = words.next();
    let Some(first) = words.next() else {
        return Err(anyhow!("no engine is named; `protocol --help` tells how it is used"));
    };
    let file = words.next();
    if first.as_str() == "--help" {
        return Ok(Command::Help);
    }
    if first.as_str() != "number" {
        return Err(anyhow!("there is no engine `{first}`; the engine is `number`"));
    }
    if words.next().is_some() {
        return Err(anyhow!("too many arguments; `protocol --help` tells how it is used"));
    }
    Ok(Command::Number(file))
}

// The bytes of the log.
fn read_log(rt: &HostRuntime, file: Option<String>) -> anyhow::Result<Vec<u8>> {
    match file {
        Some(path) => fs::read(rt, path.as_str()).map_err(|error| anyhow!("{path}: {error}")),
        None => {
            let mut bytes = Vec::new(rt.alloc());
            rt.stdin().read_to_end(&mut bytes)?;
            Ok(bytes)
        }
    }
}

// The lines of the log, in a store of their own.
fn stored(rt: &HostRuntime, log: &[u8]) -> Result<SlotStore, Failure> {
    let lines = split_lines(rt.alloc(), log)?;
    let mut store = SlotStore::new(rt.alloc(), SLOTS)?;
    if let Err(fault) = load_lines(&mut store, lines.as_slice()) {
        let line = store.count();
        eprintln!(rt; "protocol: line {line} of the log is refused")?;
        return Err(fault.into());
    }
    Ok(store)
}

// Prints the pages as they are made, and then the totals.
fn print_pages<E: Engine>(rt: &HostRuntime, engine: &E, store: &SlotStore) -> Result<(), Failure> {
    let mut out = rt.stdout();
    let mut body = [b' '; BODY_BYTES];
    let mut at = first_position(engine);
    for _ in 0..=PAGE_LIMIT {
        match next_page(engine, store, at, PAGE_LIMIT, &mut body)? {
            Printed::More(numbers, next) => {
                out.write_all(print_page(rt.alloc(), numbers, &body)?.as_slice())?;
                at = next;
            }
            Printed::Last(numbers, totals) => {
                out.write_all(print_page(rt.alloc(), numbers, &body)?.as_slice())?;
                println!(rt; "{totals}")?;
                return Ok(());
            }
        }
    }
    Err(Failure::from(anyhow!("there are more pages than the limit")))
}

fn number(rt: &HostRuntime, file: Option<String>) -> Result<(), Failure> {
    let log = read_log(rt, file)?;
    let store = stored(rt, log.as_slice())?;
    print_pages(rt, &Numberer, &store)
}

fn run(rt: &HostRuntime) -> Result<(), Failure> {
    match parse_words(rt)? {
        Command::Help => Ok(println!(rt; "{HELP}")?),
        Command::Number(file) => number(rt, file),
    }
}

// Status 0 where the log was accepted or help was asked for, else 1. An `Err` also prints itself to standard error, as an exit code
// would not, and the program has to print what it did.
fn main(rt: HostRuntime) -> Result<(), ()> {
    let Err(failure) = run(&rt) else {
        return Ok(());
    };
    failure.tell(&rt);
    Err(())
}
