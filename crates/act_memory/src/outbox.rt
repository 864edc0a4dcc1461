//! Acts that wait to be journaled.

ghost use Rattle.std.specs.Prelude.{◌≡◌, ◌≤◌, ◌<◌, ◌+◌, ◌++◌, [], ◌∷◌, max};
ghost use Rattle.std.specs.Prelude.{IsOk, OnOk, OnErr, MatchOption};

use domain_base::NoMemory;
use run_journal::Act;
use std::alloc::Global;
use std::collections::VecDeque;
use std::marker::Model;

/// The acts of a node in the order in which it did them. Contracts see them in this order, with the
/// number of further ones for which there is room.
#[derive(Drop)]
pub struct Outbox {
    acts: VecDeque<Act>,
    spare: usize,
}

impl Model for Outbox {
    ghost use Rattle.std.specs.Prelude.{◌+◌, ◌≤◌};
    ghost use Rattle.std.specs.VecDeque.{deque_len, deque_capacity};
    ghost use Rattle.act_memory.specs.Waiting.{Waiting};

    ghost Value = { Waiting };

    ghost view = { λ o. record { acts = o.acts.items; spare = o.spare } };

    ghost invariant = { λ o. deque_len o.acts + o.spare ≤ deque_capacity o.acts };
}

impl Outbox {
    /// No acts, and no room. Takes no memory.
    pub fn new(alloc: Global) -> Self
        ensures acts { result.acts ≡ [] }
        ensures spare { result.spare ≡ 0 }
    {
        Outbox {
            acts: VecDeque::new(alloc),
            spare: 0,
        }
    }

    /// Makes room for at least so many more acts.
    pub fn reserve(&mut self, more: usize) -> Result<(), NoMemory>
        ensures acts { self.new.acts ≡ self.old.acts }
        ensures spare { OnOk result (self.new.spare ≡ max self.old.spare more) }
        ensures err { OnErr result (self.new ≡ self.old) }
        ensures room { more ≤ self.old.spare → IsOk result }
    {
        if more <= self.spare {
            return Ok(());
        }
        self.acts.reserve(more)?;
        self.spare = more;
        Ok(())
    }

    /// One more act, where there is room. Takes no memory.
    pub fn add(&mut self, act: Act)
        requires { 0 < self.old.spare }
        ensures acts { self.new.acts ≡ self.old.acts ++ act ∷ [] }
        ensures spare { self.new.spare + 1 ≡ self.old.spare }
    {
        self.acts.push_back_reserved(act);
        self.spare -= 1;
    }

    /// Takes the first act. The room for further ones stays.
    pub fn pop(&mut self) -> Option<Act>
        ensures acts { MatchOption result
            (self.old.acts ≡ []) (λ act. self.old.acts ≡ act ∷ self.new.acts) }
        ensures none { self.old.acts ≡ [] → self.new.acts ≡ [] }
        ensures spare { self.new.spare ≡ self.old.spare }
    {
        self.acts.pop_front()
    }
}
