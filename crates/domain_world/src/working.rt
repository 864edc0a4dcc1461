//! The workers of a round, side by side: one for each access point that has events.

ghost use Rattle.std.specs.Prelude.{◌≡◌, ◌<◌, ◌≤◌, ◌+◌, true, ◌∷◌, [], ◌++◌, length, IfOk, IfErr};
ghost use Rattle.std.specs.Prelude.{IsOkAnd, vec_len, vec_capacity};
ghost use denote.Param.Send.{IsSync};
ghost use Rattle.holder_table.specs.Knowledge.{NoLess, TookIn};
ghost use Rattle.holder_table.specs.Rule.{is_in};
ghost use Rattle.domain_world.specs.Holding.{HasBelow, HasFrom};
ghost use Rattle.domain_world.specs.Working.{IsRound, turns_at, Worked as WorkedBy, AreNumbered};
ghost use Rattle.domain_world.specs.Working.{HandedBack, AllWorked};
ghost use Rattle.domain_world.specs.Working.{IsBatch, IsHalved, HasRun};

use crate::caching::CachingAp;
use crate::gate::Gate;
use crate::part::Part;
use ap_node::ApNode;
use domain_base::NoMemory;
use holder_table::{CachedBound, HolderPass, SharedHolders};
use run_journal::Event;
use std::alloc::Global;
use std::thread::{Threads, join};

/// An event of a round, as it comes to its access point.
#[derive(Drop)]
pub(crate) struct Turn<'a> {
    /// The event.
    pub(crate) event: &'a Event,
    /// The octets that come by it.
    pub(crate) comes: &'a [u8],
}

/// What is done in a round, access point by access point.
///
/// A trait, so that what is run in another thread captures a type parameter: of a captured type
/// that names a lifetime the caller of `join` would learn nothing.
pub(crate) trait Acts {
    ghost use Rattle.std.specs.Prelude.{◌≡◌, ◌<◌, true, false, List, length, IfOk};
    ghost use Rattle.run_journal.specs.declared.domain.Domain.{Domain};
    ghost use Rattle.holder_table.specs.Relations.{KnowsNoLess};
    ghost use Rattle.holder_table.specs.Rule.{is_in};
    ghost use Rattle.domain_world.specs.declared.working.Turn.{Turn as AnyTurn};
    ghost use Rattle.domain_world.specs.Working.{IsRound, turns_at, AreIdle, Worked as WorkedBy};

    ghost domain: { Self → Domain };

    ghost turns: { Self → List AnyTurn };

    /// Whether an event is at one of so many access points from that one on.
    fn has_turn(&self, first: u16, count: usize) -> bool
        ensures { result ≡ false → AreIdle first count (turns self.now) };

    /// All events of an access point, one after the other: what each adds waits.
    fn act(
        &self,
        number: u16,
        node: &mut ApNode,
        holders: &mut CachedBound<'_>,
    ) -> Result<Vec<Part>, NoMemory>
        requires round { IsRound (domain self.now) holders.old.table.now.ids (turns self.now) }
        requires number { node.old.number ≡ number }
        requires listed { number < length (domain self.now).aps }
        requires has { is_in number holders.old.pass.knows.has ≡ true }
        ensures number { node.new.number ≡ number }
        ensures worked { IfOk result (λ parts. WorkedBy (domain self.now) number
            (turns_at number (turns self.now)) node.old node.new holders.old.pass.knows.seen
            holders.new.pass.knows.seen parts.items) }
        ensures no_less { KnowsNoLess holders.old.table.now holders.old.pass holders.new.table.now
            holders.new.pass };
}

/// What a worker hands back.
#[derive(Drop)]
struct Worked {
    node: CachingAp,
    pass: HolderPass,
    parts: Result<Vec<Part>, NoMemory>,
}

/// Access points in order, the number of the first, and a pass that has them.
#[derive(Drop)]
struct Batch {
    first: u16,
    aps: Vec<CachingAp>,
    pass: HolderPass,
}

/// What the workers of access points hand back: these, a pass that has them, and what they did, by
/// access points.
#[derive(Drop)]
pub(crate) struct Ran {
    /// The access points.
    pub(crate) aps: Vec<CachingAp>,
    /// The pass.
    pub(crate) pass: HolderPass,
    /// What they did.
    pub(crate) parts: Result<Vec<Part>, NoMemory>,
}

// The worker of an access point, which has its node and cache, and a pass of its own.
fn work<W: Acts, G: Gate>(
    table: &SharedHolders,
    round: &W,
    gate: &G,
    number: u16,
    node: CachingAp,
    pass: HolderPass,
) -> Worked
    requires round { IsRound (W.domain round.now) table.now.ids (W.turns round.now) }
    requires number { node.number ≡ number }
    requires listed { number < length (W.domain round.now).aps }
    requires pass { pass.table ≡ table.now.table }
    requires has { is_in number pass.knows.has ≡ true }
    ensures number { result.node.number ≡ number }
    ensures pass { result.pass.table ≡ pass.table }
    ensures no_less { NoLess pass.knows result.pass.knows }
    ensures worked { IfOk result.parts (λ parts. WorkedBy (W.domain round.now) number
        (turns_at number (W.turns round.now)) node result.node pass.knows.seen
        result.pass.knows.seen parts.items) }
{
    gate.pass(number);
    let CachingAp { mut node, cache } = node;
    let Some(cache) = cache else { unreachable!() };
    let mut holders = CachedBound::new(table, pass, cache);
    let parts = round.act(number, &mut node, &mut holders);
    let (pass, cache) = holders.into_parts();
    let cache = Some(cache);
    Worked {
        node: CachingAp { node, cache },
        pass,
        parts,
    }
}

// What one did behind what others did.
fn appended(
    front: Result<Vec<Part>, NoMemory>,
    mine: Result<Vec<Part>, NoMemory>,
) -> Result<Vec<Part>, NoMemory>
    ensures { IfOk result (λ all. IsOkAnd front (λ f. IsOkAnd mine (λ m.
        all.items ≡ f.items ++ m.items))) }
{
    let mut front = front?;
    let mut mine = mine?;
    front.append(&mut mine)?;
    Ok(front)
}

// Access points that have no event: they are handed back as they are.
fn idle(alloc: Global, batch: Batch) -> Ran
    ensures aps { result.aps.items ≡ batch.aps.items }
    ensures capacity { vec_capacity result.aps ≡ vec_capacity batch.aps }
    ensures pass { result.pass ≡ batch.pass }
    ensures parts { IfOk result.parts (λ parts. parts.items ≡ []) }
{
    let Batch { aps, pass, .. } = batch;
    Ran {
        aps,
        pass,
        parts: Ok(Vec::new(alloc)),
    }
}

// The worker of the one access point of a batch, with a pass that has no other.
fn alone<W: Acts, G: Gate>(table: &SharedHolders, round: &W, gate: &G, batch: Batch) -> Ran
    requires round { IsRound (W.domain round.now) table.now.ids (W.turns round.now) }
    requires batch { IsBatch (W.domain round.now) table.now.table batch }
    requires one { vec_len batch.aps ≡ 1 }
    ensures capacity { vec_capacity batch.aps ≤ vec_capacity result.aps }
    ensures ran { HasRun (W.domain round.now) (W.turns round.now) batch result }
{
    let Batch {
        first: number,
        mut aps,
        mut pass,
    } = batch;
    let Some(node) = aps.pop() else {
        unreachable!()
    };
    let given = table.split(&mut pass, number);
    let Worked {
        node,
        pass: own,
        parts,
    } = work(table, round, gate, number, node, given);
    table.join(&mut pass, own);
    aps.push_reserved(node);
    Ran { aps, pass, parts }
}

// Both halves of a batch of several; all of it where memory runs out.
fn halved(table: &SharedHolders, batch: Batch) -> Result<(Batch, Batch), Batch>
    requires several { 2 ≤ vec_len batch.aps }
    requires few { batch.first + length batch.aps.items ≤ 65536 }
    requires pass { batch.pass.table ≡ table.now.table }
    requires has { HasFrom batch.first (length batch.aps.items) batch.pass.knows.has }
    ensures halves { IfOk result (λ h. IsHalved batch h.0 h.1) }
    ensures capacity { IfOk result (λ h. vec_capacity h.0.aps ≡ vec_capacity batch.aps) }
    ensures same { IfErr result (λ b. b ≡ batch) }
{
    let Batch {
        first,
        mut aps,
        mut pass,
    } = batch;
    let low = aps.len() / 2;
    let Ok(high) = aps.split_off(low) else {
        return Err(Batch { first, aps, pass });
    };
    let next = first + low as u16;
    let given = table.split_from(&mut pass, next);
    let back = Batch {
        first: next,
        aps: high,
        pass: given,
    };
    Ok((Batch { first, aps, pass }, back))
}

// What the workers of both halves hand back, together.
fn together(table: &SharedHolders, front: Ran, back: Ran) -> Ran
    requires room { vec_len front.aps + vec_len back.aps ≤ vec_capacity front.aps }
    requires pass { front.pass.table ≡ table.now.table }
    requires other { back.pass.table ≡ table.now.table }
    ensures aps { result.aps.items ≡ front.aps.items ++ back.aps.items }
    ensures capacity { vec_capacity front.aps ≤ vec_capacity result.aps }
    ensures pass { result.pass.table ≡ front.pass.table }
    ensures took_in { TookIn front.pass.knows back.pass.knows result.pass.knows }
    ensures parts { IfOk result.parts (λ all. IsOkAnd front.parts (λ f. IsOkAnd back.parts (λ m.
        all.items ≡ f.items ++ m.items))) }
{
    let Ran {
        mut aps,
        mut pass,
        parts,
    } = front;
    let Ran {
        aps: mut more,
        pass: other,
        parts: later,
    } = back;
    table.join(&mut pass, other);
    let Ok(()) = aps.append(&mut more) else {
        unreachable!()
    };
    Ran {
        aps,
        pass,
        parts: appended(parts, later),
    }
}

// The workers of both halves, side by side where each half has an event.
#[cycle(halves)]
fn both_halves<R: Threads + Sync, W: Acts + Sync, G: Gate + Sync>(
    rt: &R,
    alloc: Global,
    table: &SharedHolders,
    round: &W,
    gate: &G,
    front: Batch,
    back: Batch,
) -> (Ran, Ran)
    requires round { IsRound (W.domain round.now) table.now.ids (W.turns round.now) }
    requires front { IsBatch (W.domain round.now) table.now.table front }
    requires back { IsBatch (W.domain round.now) table.now.table back }
    requires some { (0 < length front.aps.items) × (0 < length back.aps.items) }
    ensures front { HasRun (W.domain round.now) (W.turns round.now) front result.0 }
    ensures back { HasRun (W.domain round.now) (W.turns round.now) back result.1 }
    ensures capacity { vec_capacity front.aps ≤ vec_capacity result.0.aps }
{
    let front_has = round.has_turn(front.first, front.aps.len());
    let back_has = round.has_turn(back.first, back.aps.len());
    if !(front_has && back_has) {
        let front = run_batch(rt, alloc, table, round, gate, front);
        let back = run_batch(rt, alloc, table, round, gate, back);
        return (front, back);
    }
    join(
        rt,
        || -> Ran
            requires { IsSync R.row × IsSync W.row × IsSync G.row
                × IsRound (W.domain round.now) table.now.ids (W.turns round.now)
                × IsBatch (W.domain round.now) table.now.table front }
            ensures capacity { vec_capacity front.aps ≤ vec_capacity result.aps }
            ensures ran { HasRun (W.domain round.entry.now) (W.turns round.entry.now) front
                result }
        { run_batch(rt, alloc, table, round, gate, front) },
        || -> Ran
            requires { IsSync R.row × IsSync W.row × IsSync G.row
                × IsRound (W.domain round.now) table.now.ids (W.turns round.now)
                × IsBatch (W.domain round.now) table.now.table back }
            ensures ran { HasRun (W.domain round.entry.now) (W.turns round.entry.now) back
                result }
        { run_batch(rt, alloc, table, round, gate, back) },
    )
}

// The workers of a batch: by halves, so that the last of many starts after few others.
#[cycle(halves)]
fn run_batch<R: Threads + Sync, W: Acts + Sync, G: Gate + Sync>(
    rt: &R,
    alloc: Global,
    table: &SharedHolders,
    round: &W,
    gate: &G,
    batch: Batch,
) -> Ran
    requires round { IsRound (W.domain round.now) table.now.ids (W.turns round.now) }
    requires batch { IsBatch (W.domain round.now) table.now.table batch }
    ensures capacity { vec_capacity batch.aps ≤ vec_capacity result.aps }
    ensures ran { HasRun (W.domain round.now) (W.turns round.now) batch result }
{
    let count = batch.aps.len();
    if count == 0 {
        return idle(alloc, batch);
    }
    if !round.has_turn(batch.first, count) {
        return idle(alloc, batch);
    }
    if count == 1 {
        return alone(table, round, gate, batch);
    }
    match halved(table, batch) {
        Ok((front, back)) => {
            let (front, back) = both_halves(rt, alloc, table, round, gate, front, back);
            together(table, front, back)
        }
        Err(Batch { aps, pass, .. }) => Ran {
            aps,
            pass,
            parts: Err(NoMemory),
        },
    }
}

/// The workers of these access points, side by side. They are the first ones, in order, and the
/// pass has them.
pub(crate) fn run<R: Threads + Sync, W: Acts + Sync, G: Gate + Sync>(
    rt: &R,
    alloc: Global,
    table: &SharedHolders,
    round: &W,
    gate: &G,
    aps: Vec<CachingAp>,
    pass: HolderPass,
) -> Ran
    requires round { IsRound (W.domain round.now) table.now.ids (W.turns round.now) }
    requires few { length aps.items ≤ length (W.domain round.now).aps }
    requires numbered { AreNumbered aps.items }
    requires pass { pass.table ≡ table.now.table }
    requires has { HasBelow (length aps.items) pass.knows.has }
    ensures back { HandedBack aps.items result.aps.items pass result.pass }
    ensures capacity { vec_capacity aps ≤ vec_capacity result.aps }
    ensures worked { IfOk result.parts (λ parts. AllWorked (W.domain round.now)
        (length aps.items) (W.turns round.now) pass.knows.seen result.pass.knows.seen aps.items
        result.aps.items parts.items) }
{
    let batch = Batch {
        first: 0,
        aps,
        pass,
    };
    run_batch(rt, alloc, table, round, gate, batch)
}
