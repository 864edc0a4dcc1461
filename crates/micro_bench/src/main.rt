//! Does one piece of work, so that its cost can be measured, and prints what came of it. Its words
//! are the name of a cryptographic work, how often it is done, and for payloads their size, from 0
//! to 2,304 octets: `encrypt`, `decrypt`, `expand`, `expand-forward`, `cmac`, `seal`, `wrap`,
//! `unwrap` and `pbkdf2`, `link` (a key asked for over a link) and `link-ciphers` (its cryptography
//! alone), or `protect` and `open` of payloads. Or they are `pull`, the number of threads (1, 2 or
//! 4), the number of rows of each of 16 access points (1 to 64) and the number of pulls of each
//! thread: keys are pulled from the shared key holders, in several threads side by side, each by a
//! pass of its own. With a last word `absent` it asks for names that are not held, with `held`, or
//! none, for those that are, and with `cached` for those by a cache of 64 keys for each thread.
//! Other words end with 1. Without words it does a few of each.
#![tactic(auto)]

mod ciphers;
mod crew;
mod links;
mod rows;
mod work;

use ciphers::octet_of;
use crew::pulled;
use domain_base::NoMemory;
use holder_table::SharedHolders;
use links::linked;
use rows::{fill_all, ids};
use std::alloc::{AllocGlobal, Global};
use std::env::{self, Env};
use std::process::ExitCode;
use std::thread::Threads;
use work::{Asks, Pulled, TABLE, Work};

// What all threads found at new holders, or None where not every row was held.
fn done<R: Threads + Sync>(rt: &R, alloc: Global, work: Work) -> Result<Option<Pulled>, NoMemory> {
    let (holders, mut pass) = SharedHolders::start(alloc, ids(alloc)?)?;
    if !fill_all(&holders, &mut pass, work.rows) {
        return Ok(None);
    }
    Ok(Some(pulled(rt, &holders, alloc, work, pass)))
}

// Does the work and prints a line. Answers whether as many keys were found as were asked for.
fn told<R: Print + AllocGlobal + Threads + Sync>(rt: &R, work: Work) -> bool {
    let Ok(Some(pulled)) = done(rt, rt.alloc(), work) else {
        return false;
    };
    let Pulled { found, sum } = pulled;
    let asked = work.asked();
    let Work { threads, rows, .. } = work;
    let line = println!(rt; "threads {threads}, rows {rows}: found {found} of {asked}, sum {sum}");
    line.is_ok() && (found == asked || matches!(work.asks, Asks::Absent))
}

// Each line of the table, with few pulls.
fn pulls_told<R: Print + AllocGlobal + Threads + Sync>(rt: &R) -> bool {
    let mut all = true;
    for i in 0..TABLE.len() {
        let (threads, rows) = TABLE[i];
        let work = Work {
            threads,
            rows,
            pulls: 1000,
            asks: Asks::Cached,
        };
        all &= told(rt, work);
    }
    all
}

// Cryptographic works, each with how often it is done where no words name one, and with the size of
// payloads.
const CIPHERS: [(&str, u32, Option<usize>); 10] = [
    ("encrypt", 3, None),
    ("decrypt", 3, None),
    ("expand", 3, None),
    ("expand-forward", 3, None),
    ("cmac", 3, None),
    ("wrap", 3, None),
    ("unwrap", 3, None),
    ("pbkdf2", 1, None),
    ("protect", 3, Some(300)),
    ("open", 3, Some(300)),
];

// An octet of the result of a cryptographic work, where there is one of that name.
fn octet<R: AllocGlobal>(rt: &R, work: &str, times: u32, size: Option<usize>) -> Option<u8> {
    match work {
        "link" => linked(rt.alloc(), times),
        _ => octet_of(work, times, size),
    }
}

// Does a cryptographic work, where there is one of that name, and prints a line.
fn octet_told<R: Print + AllocGlobal>(rt: &R, work: &str, times: u32, size: Option<usize>) -> bool {
    match octet(rt, work, times, size) {
        Some(octet) => println!(rt; "{work} {times}: {octet}").is_ok(),
        None => false,
    }
}

fn octets_told<R: Print + AllocGlobal>(rt: &R) -> bool {
    let mut all = true;
    for i in 0..CIPHERS.len() {
        let (work, times, size) = CIPHERS[i];
        all &= octet_told(rt, work, times, size);
    }
    all
}

// How often, and the size of payloads.
fn numbers(words: &[String]) -> Option<(u32, Option<usize>)> {
    if words.is_empty() || words.len() > 2 {
        return None;
    }
    let times = words[0].parse::<u32>().ok()?;
    if words.len() == 1 {
        return Some((times, None));
    }
    Some((times, Some(words[1].parse::<usize>().ok()?)))
}

// Does the work that the words name. Answers whether they name one, and it went well.
fn does<R: Print + AllocGlobal + Threads + Sync>(rt: &R, work: &str, words: &[String]) -> bool {
    if work == "pull" {
        return match Work::of_words(words) {
            Some(work) => told(rt, work),
            None => false,
        };
    }
    match numbers(words) {
        Some((times, size)) => octet_told(rt, work, times, size),
        None => false,
    }
}

fn run<R: Env + Print + AllocGlobal + Threads + Sync>(rt: &R) -> bool {
    let Ok(args) = env::args(rt) else {
        return false;
    };
    let Ok(words) = args.skip(1).collect::<Vec<String>>(rt.alloc()) else {
        return false;
    };
    if words.is_empty() {
        return octets_told(rt) && pulls_told(rt);
    }
    does(rt, words[0].as_str(), &words[1..])
}

fn main(rt: HostRuntime) -> ExitCode {
    if run(&rt) {
        ExitCode::SUCCESS
    } else {
        ExitCode::FAILURE
    }
}
