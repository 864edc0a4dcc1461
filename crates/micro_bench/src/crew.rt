//! Pulls of one thread, and of several side by side.

ghost use Rattle.std.specs.Prelude.{◌≡◌, ◌+◌, ◌*◌, ◌<◌, ◌≤◌, length, IfSome};
ghost use Rattle.key_holders.specs.Listed.{below};
ghost use Rattle.key_hierarchy.specs.declared.fast_transition.PmkR1.{PmkR1};
ghost use Rattle.key_hierarchy.specs.declared.answers.PullAnswer.{PullAnswer};

use crate::rows::{R0KH_IDS, name_of, sta_of};
use crate::work::{Asks, Pulled, Work};
use domain_base::Mac;
use holder_table::{HolderPass, SharedHolders};
use key_hierarchy::PullAnswer;
use key_holders::R1Cache;
use std::alloc::Global;
use std::thread::{Threads, join};

const R1KH: Mac = Mac([0x02, 0x00, 0x00, 0x00, 0x01, 0x00]);

// The most keys that the cache of a thread has.
const CACHED: usize = 64;

// An octet of the key and its name, where one was found.
fn octet_of(answer: PullAnswer) -> Option<u8>
    ensures { IfSome result (λ _. (r1 : PmkR1) × (answer ≡ PullAnswer.Found r1)) }
{
    match answer {
        PullAnswer::Found(r1) => Some(r1.key[0] ^ r1.name[0]),
        PullAnswer::NoHolder | PullAnswer::Absent => None,
    }
}

// Asks the access points by turns, and each for one of its rows after the other. Answers an octet
// of the key and its name, where one is found: by a load of the row's state word in this call.
fn pull(
    holders: &SharedHolders,
    pass: &mut HolderPass,
    cache: &mut R1Cache,
    work: Work,
    start: u8,
    turn: u32,
) -> Option<u8>
    requires pass { pass.old.table ≡ holders.now.table }
    ensures pass { pass.new.table ≡ pass.old.table }
    ensures loads { length pass.old.knows.loads ≤ length pass.new.knows.loads }
    ensures found { IfSome result (λ _. length pass.old.knows.loads < length pass.new.knows.loads) }
{
    let ap = ((turn % 16) as u8 + start % 16) % 16;
    let number = (turn / 16 % u32::from(work.rows.max(1))) as u8;
    let is_absent = matches!(work.asks, Asks::Absent);
    let name = name_of(if is_absent { 255 } else { ap }, number);
    let id = R0KH_IDS[ap as usize];
    let sta = sta_of(number);
    if matches!(work.asks, Asks::Cached) {
        return octet_of(holders.pull_cached(pass, cache, id, &name, R1KH, sta));
    }
    octet_of(holders.pull(pass, id, &name, R1KH, sta))
}

// The pulls of one thread.
fn pull_all(
    holders: &SharedHolders,
    pass: &mut HolderPass,
    cache: &mut R1Cache,
    work: Work,
    start: u8,
) -> Pulled
    requires pass { pass.old.table ≡ holders.now.table }
    ensures pulls { result.found ≤ work.pulls }
    ensures loads { length pass.old.knows.loads + result.found ≤ length pass.new.knows.loads }
{
    let mut found = 0;
    let mut sum = 0u8;
    for turn in 0..work.pulls {
        if let Some(octet) = pull(holders, pass, cache, work, start, turn) {
            found += 1;
            sum = sum.wrapping_add(octet);
        }
    }
    Pulled { found, sum }
}

// By one thread, or nothing where memory ran out for its cache.
fn by_one(holders: &SharedHolders, alloc: Global, work: Work, start: u8, pass: HolderPass) -> Pulled
    requires pass { pass.table ≡ holders.now.table }
    ensures { result.found ≤ work.pulls }
{
    let mut pass = pass;
    match R1Cache::new(alloc, CACHED) {
        Ok(mut cache) => pull_all(holders, &mut pass, &mut cache, work, start),
        Err(_) => Pulled { found: 0, sum: 0 },
    }
}

fn by_two<R: Threads + Sync>(
    rt: &R,
    holders: &SharedHolders,
    alloc: Global,
    work: Work,
    start: u8,
    passes: (HolderPass, HolderPass),
) -> Pulled
    requires { (passes.0.table ≡ holders.now.table) × (passes.1.table ≡ holders.now.table) }
    ensures { result.found ≤ 2 * work.pulls }
{
    let (first, second) = passes;
    let (one, two) = join(
        rt,
        || -> Pulled
            requires { first.table ≡ holders.now.table }
            ensures { result.found ≤ work.pulls }
        { by_one(holders, alloc, work, start, first) },
        || -> Pulled
            requires { second.table ≡ holders.now.table }
            ensures { result.found ≤ work.pulls }
        { by_one(holders, alloc, work, start ^ 4, second) },
    );
    one.with(two)
}

fn by_four<R: Threads + Sync>(
    rt: &R,
    holders: &SharedHolders,
    alloc: Global,
    work: Work,
    front: (HolderPass, HolderPass),
    back: (HolderPass, HolderPass),
) -> Pulled
    requires front { (front.0.table ≡ holders.now.table) × (front.1.table ≡ holders.now.table) }
    requires back { (back.0.table ≡ holders.now.table) × (back.1.table ≡ holders.now.table) }
    ensures { result.found ≤ 4 * work.pulls }
{
    let (one, two) = join(
        rt,
        || -> Pulled
            requires { (front.0.table ≡ holders.now.table) × (front.1.table ≡ holders.now.table) }
            ensures { result.found ≤ 2 * work.pulls }
        { by_two(rt, holders, alloc, work, 0, front) },
        || -> Pulled
            requires { (back.0.table ≡ holders.now.table) × (back.1.table ≡ holders.now.table) }
            ensures { result.found ≤ 2 * work.pulls }
        { by_two(rt, holders, alloc, work, 8, back) },
    );
    one.with(two)
}

/// The pulls of all threads. Each has a pass of its own, with an access point of its own.
pub fn pulled<R: Threads + Sync>(
    rt: &R,
    holders: &SharedHolders,
    alloc: Global,
    work: Work,
    pass: HolderPass,
) -> Pulled
    requires pass { pass.table ≡ holders.now.table }
    requires has { pass.knows.has ≡ below 16 }
    ensures { result.found ≤ 4 * work.pulls }
{
    let mut first = pass;
    if work.threads == 1 {
        return by_one(holders, alloc, work, 0, first);
    }
    let second = holders.split(&mut first, 1);
    if work.threads == 2 {
        return by_two(rt, holders, alloc, work, 0, (first, second));
    }
    let third = holders.split(&mut first, 2);
    let fourth = holders.split(&mut first, 3);
    by_four(rt, holders, alloc, work, (first, second), (third, fourth))
}
