//! An air with its links, and draws, in memory, some of whose calls fail.

ghost use Rattle.std.specs.Prelude.{◌≡◌, ◌≢◌, ◌↔◌, ◌<◌, ◌≤◌, ◌⊎◌, ◌++◌, ◌∷◌, length, [], Ok, Err};
ghost use Rattle.std.specs.Prelude.{Some, None, IsTrue, IsErr, OnOk, OnErr, IfOk, IfSome, true};
ghost use Rattle.std.specs.Prelude.{false, vec_len, position};
ghost use Rattle.domain_base.specs.Causes.{HasCause, HasLinkCause, HandsOn};
ghost use Rattle.domain_base.specs.Told.{Sends, Gives, Attaches, TakesBack, new_link};
ghost use Rattle.domain_base.specs.Memory.{FailsNext, CountsCall, CountsSend, no_calls, one_more};
ghost use Rattle.domain_base.specs.Memory.{is_plan_of, parts_for, planned_link, SamePartsForOthers};
ghost use Rattle.domain_base.specs.Memory.{faulty_story};
ghost use Rattle.domain_base.specs.declared.outside.LinkError.TheVariants as error;

use crate::memory::FailingCalls;
use crate::memory_air::{SteadyDraws, SteadyLink};
use crate::names::{Node, Octets};
use crate::outside::{Failed, LinkError, NoMemory};
use crate::radio::{Air, Draws, Link, SentFrame};
use std::alloc::Global;
use std::marker::Model;

/// A link in memory that gives its frames in order, and keeps those sent. Some of its calls fail,
/// those of the numbers that it was made with, from 0.
#[derive(Drop)]
pub struct MemLink {
    link: SteadyLink,
    calls: FailingCalls,
}

impl Model for MemLink {
    ghost use Rattle.domain_base.specs.Memory.{KeptLink};

    ghost Value = { KeptLink };

    ghost view = { λ l. record { story = l.link; calls = l.calls } };
}

impl MemLink {
    /// The link of that node, which will give those frames. Its calls of the numbers in `failing`
    /// are to fail. Takes no memory.
    pub fn new(alloc: Global, node: Node, frames: Vec<Octets>, failing: Vec<u64>) -> Self
        ensures { result
            ≡ record { story = new_link node frames.items; calls = no_calls failing.items } }
    {
        MemLink {
            link: SteadyLink::new(alloc, node, frames),
            calls: FailingCalls::new(failing),
        }
    }

    /// The frames sent, in order.
    pub fn sent(&self) -> &[SentFrame]
        ensures { result.now ≡ self.now.story.sent }
    {
        self.link.sent()
    }

    /// The frames that it will still give, in order.
    pub fn left(&self) -> &[Octets]
        ensures { result.now ≡ self.now.story.left }
    {
        self.link.left()
    }
}

impl Link for MemLink {
    ghost told = { λ l. Some l.story };

    ghost faults = { λ l. l.calls.faults };

    fn send(&mut self, to: Node, bytes: &[u8]) -> Result<(), LinkError>
        ensures sent { Sends (Some self.old.story) (Some self.new.story) to bytes.now result }
        ensures cause { HasLinkCause self.old.calls.faults self.new.calls.faults result }
        ensures unfailed { OnOk result (self.new.calls.faults ≡ self.old.calls.faults) }

        ensures fails { (result ≡ Err error.Failed) ↔ FailsNext self.old.calls }
        ensures calls { CountsSend self.old.calls self.new.calls result }
    {
        if self.calls.next_fails() {
            self.calls.fault();
            return Err(LinkError::Failed);
        }
        self.link.send(to, bytes)
    }

    fn poll(&mut self, buf: &mut [u8]) -> Result<Option<usize>, Failed>
        ensures bound { IfOk result (λ given. IfSome given (λ size. size ≤ length buf.new)) }
        ensures given { Gives (Some self.old.story) (Some self.new.story) result buf.new }
        ensures cause { HasCause self.old.calls.faults self.new.calls.faults result }
        ensures unfailed { OnOk result (self.new.calls.faults ≡ self.old.calls.faults) }

        ensures fails { IsErr result ↔ FailsNext self.old.calls }
        ensures calls { CountsCall self.old.calls self.new.calls result }
    {
        if self.calls.next_fails() {
            self.calls.fault();
            return Err(Failed);
        }
        self.link.poll(buf)
    }
}

/// Draws in memory that always give one seed. Some of their calls fail, those of the numbers that
/// they were made with, from 0.
#[derive(Drop)]
pub struct MemDraws {
    draws: SteadyDraws,
    calls: FailingCalls,
}

impl Model for MemDraws {
    ghost use Rattle.domain_base.specs.Memory.{KeptDraws};

    ghost Value = { KeptDraws };

    ghost view = { λ d. record { seed = d.draws.seed; last = d.draws.last; calls = d.calls } };
}

impl MemDraws {
    /// Draws that give that seed, and have given none. The calls of the numbers in `failing` are to
    /// fail. Takes no memory.
    pub fn new(seed: [u8; 32], failing: Vec<u64>) -> Self
        ensures { result ≡ record { seed = seed; last = None; calls = no_calls failing.items } }
    {
        MemDraws {
            draws: SteadyDraws::new(seed),
            calls: FailingCalls::new(failing),
        }
    }
}

impl Draws for MemDraws {
    ghost last = { λ d. d.last };

    ghost faults = { λ d. d.calls.faults };

    fn seed(&mut self) -> Result<[u8; 32], Failed>
        ensures given { IfOk result (λ seed. (seed ≡ self.old.seed) × (self.new.last ≡ Some seed)) }
        ensures kept { OnErr result (self.new.last ≡ self.old.last) }
        ensures cause { HasCause self.old.calls.faults self.new.calls.faults result }
        ensures unfailed { OnOk result (self.new.calls.faults ≡ self.old.calls.faults) }

        ensures fails { IsErr result ↔ FailsNext self.old.calls }
        ensures calls { CountsCall self.old.calls self.new.calls result }
        ensures same { self.new.seed ≡ self.old.seed }
    {
        if self.calls.next_fails() {
            self.calls.fault();
            return Err(Failed);
        }
        self.draws.seed()
    }
}

// What the link of a node is made of: the frames that it will give, and the numbers of its calls
// that are to fail.
#[derive(Drop)]
struct LinkParts {
    frames: Vec<Octets>,
    failing: Vec<u64>,
}

impl Model for LinkParts {
    ghost use Rattle.domain_base.specs.Memory.{PlannedParts};

    ghost Value = { PlannedParts };

    ghost view = { λ p. record { frames = p.frames.items; failing = p.failing.items } };
}

/// What is handed in for the link of a node that may be attached.
#[derive(Drop)]
pub struct LinkPlan {
    node: Node,
    parts: Option<LinkParts>,
}

impl Model for LinkPlan {
    ghost use Rattle.domain_base.specs.Memory.{PlannedLink};

    ghost Value = { PlannedLink };

    ghost view = { λ p. record { node = p.node; parts = p.parts } };
}

impl LinkPlan {
    /// Those frames, in order, for the link of that node. Its calls of the numbers in `failing`,
    /// from 0, are to fail. Takes no memory.
    pub fn new(node: Node, frames: Vec<Octets>, failing: Vec<u64>) -> Self
        ensures node { result.node ≡ node }
        ensures parts { result.parts
            ≡ Some (record { frames = frames.items; failing = failing.items }) }
    {
        LinkPlan {
            node,
            parts: Some(LinkParts { frames, failing }),
        }
    }

    // Takes out the parts, once.
    fn take(&mut self) -> Option<LinkParts>
        ensures parts { result ≡ self.old.parts }
        ensures rest { self.new ≡ record self.old { parts = None } }
    {
        self.parts.take()
    }
}

// Where the first plan for a node stands.
fn plan_of(plans: &[LinkPlan], node: Node) -> Option<usize>
    ensures { result ≡ position (is_plan_of node) plans.now }
{
    plans.iter().position(|plan| plan.node == node)
}

// Takes out the parts of the link of a node, which are there once.
fn take_parts(plans: &mut Vec<LinkPlan>, node: Node) -> Option<LinkParts>
    ensures parts { result ≡ parts_for node plans.old.items }
    ensures given { parts_for node plans.new.items ≡ None }
    ensures others { SamePartsForOthers node plans.old.items plans.new.items }
    ensures same { result ≡ None → plans.new.items ≡ plans.old.items }
{
    match plan_of(plans, node) {
        Some(place) => plans[place].take(),
        None => None,
    }
}

/// An air in memory. Some of its calls of `attach` fail: those of the numbers that it was made
/// with, from 0, and those for a node that was attached before, or for which nothing was handed in.
///
/// A link taken back for which there is no room is dropped, and the air tells nothing from then on.
#[derive(Drop)]
pub struct MemAir {
    alloc: Global,
    plans: Vec<LinkPlan>,
    returned: Vec<SteadyLink>,
    room: usize,
    tells: bool,
    calls: FailingCalls,
}

impl Model for MemAir {
    ghost use Rattle.std.specs.Prelude.{◌≤◌, vec_capacity};
    ghost use Rattle.domain_base.specs.Memory.{FaultyAir};

    ghost Value = { FaultyAir };

    ghost view = { λ a. record {
      plans = a.plans.items;
      returned = a.returned.items;
      room = a.room;
      tells = a.tells;
      calls = a.calls;
    } };

    ghost invariant = { λ a. a.room ≤ vec_capacity a.returned };
}

impl MemAir {
    /// An air with those plans, and room for as many links taken back as there are plans. Of two
    /// plans for one node the first counts. Its calls of the numbers in `failing` are to fail.
    pub fn new(alloc: Global, plans: Vec<LinkPlan>, failing: Vec<u64>) -> Result<Self, NoMemory>
        ensures plans { IfOk result (λ a. a.plans ≡ plans.items) }
        ensures returned { IfOk result (λ a. a.returned ≡ []) }
        ensures room { IfOk result (λ a. a.room ≡ vec_len plans) }
        ensures tells { IfOk result (λ a. a.tells ≡ true) }
        ensures calls { IfOk result (λ a. a.calls ≡ no_calls failing.items) }
    {
        let room = plans.len();
        let Ok(returned) = Vec::with_capacity(alloc, room) else {
            return Err(NoMemory);
        };
        Ok(MemAir {
            alloc,
            plans,
            returned,
            room,
            tells: true,
            calls: FailingCalls::new(failing),
        })
    }

    /// The links taken back, in order, up to its room.
    pub fn returned(&self) -> &[SteadyLink]
        ensures { result.now ≡ self.now.returned }
    {
        self.returned.as_slice()
    }

    /// Whether every link taken back is kept.
    pub fn tells(&self) -> bool
        ensures { result ≡ self.now.tells }
    {
        self.tells
    }

    // Keeps a link that was taken back, or drops it.
    fn keep(&mut self, link: SteadyLink)
        ensures kept { length self.old.returned < self.old.room
            → self.new ≡ record self.old { returned = self.old.returned ++ link ∷ [] } }
        ensures dropped { self.old.room ≤ length self.old.returned
            → self.new ≡ record self.old { tells = false } }
    {
        if self.returned.len() < self.room {
            self.returned.push_reserved(link);
        } else {
            self.tells = false;
        }
    }
}

impl Air for MemAir {
    type L = MemLink;

    ghost told = { faulty_story };

    ghost faults = { λ a. a.calls.faults };

    fn attach(&mut self, node: Node) -> Result<MemLink, Failed>
        ensures attached { IfOk result (λ link.
            Attaches (faulty_story self.old) (faulty_story self.new) node (Some link.story)) }
        ensures kept { OnErr result (faulty_story self.new ≡ faulty_story self.old) }
        ensures fresh { IfOk result (λ link. link.calls.faults ≡ 0) }
        ensures cause { HasCause self.old.calls.faults self.new.calls.faults result }
        ensures unfailed { OnOk result (self.new.calls.faults ≡ self.old.calls.faults) }

        ensures fails { IsErr result
            ↔ (FailsNext self.old.calls ⊎ (parts_for node self.old.plans ≡ None)) }
        ensures calls { CountsCall self.old.calls self.new.calls result }
        ensures planned { IfOk result (λ link.
            IfSome (parts_for node self.old.plans) (λ parts. link ≡ planned_link node parts)) }
        ensures once { OnOk result (parts_for node self.new.plans ≡ None) }
        ensures others { SamePartsForOthers node self.old.plans self.new.plans }
        ensures rest { self.new
            ≡ record self.old { plans = self.new.plans; calls = self.new.calls } }
    {
        if self.calls.next_fails() {
            self.calls.fault();
            return Err(Failed);
        }
        match take_parts(&mut self.plans, node) {
            Some(parts) => Ok(MemLink::new(self.alloc, node, parts.frames, parts.failing)),
            None => {
                self.calls.fault();
                Err(Failed)
            }
        }
    }

    fn take_back(&mut self, link: MemLink)
        ensures returned { TakesBack (faulty_story self.old) (faulty_story self.new)
            (Some link.story) }
        ensures cause { HandsOn link.calls.faults self.old.calls.faults self.new.calls.faults }

        ensures kept { length self.old.returned < self.old.room
            → self.new ≡ record self.old {
              returned = self.old.returned ++ link.story ∷ [];
              calls = self.new.calls;
            } }
        ensures dropped { self.old.room ≤ length self.old.returned
            → self.new ≡ record self.old { tells = false; calls = self.new.calls } }
        ensures counted { 0 < link.calls.faults
            → self.new.calls ≡ record self.old.calls { faults = one_more self.old.calls.faults } }
        ensures uncounted { link.calls.faults ≡ 0 → self.new.calls ≡ self.old.calls }
    {
        if link.calls.has_failed() {
            self.calls.fault();
        }
        self.keep(link.link);
    }
}
