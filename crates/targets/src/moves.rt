//! What an access point has of fast transitions with one station.

ghost use Rattle.std.specs.Prelude.{◌≡◌, [], Some, None, is_some};
ghost use Rattle.rsn_elements.specs.Elements.{HasRaw};
ghost use Rattle.rsn_elements.specs.Fields.{element_fields};
ghost use Rattle.group_key.specs.News.{news_of};
ghost use Rattle.targets.specs.State.{id_of};
ghost use Rattle.targets.specs.Steps.{IsUnawaited};

use ft_exchange::Target;
use group_key::GroupKey;
use rsn_elements::Elements;
use run_journal::{Outcome, Reason, Reply};

/// What an access point has of fast transitions with a station.
#[derive(Drop)]
pub struct Moves {
    /// The attempt, where one is under way.
    pub pending: Option<Target>,
    /// What the session came of, where there is a session that came of a fast transition.
    pub held: Option<Target>,
}

// The R0KH-ID of a fast transition, where there is one.
fn id_of(target: &Option<Target>) -> &[u8]
    ensures { result.now ≡ id_of target.now }
{
    match target {
        Some(target) => target.r0kh_id(),
        None => &[],
    }
}

// A reassociation request that is for no fast transition.
fn unawaited(reply: &mut Reply) -> Outcome
    ensures { IsUnawaited result reply.new }
{
    *reply = Reply::empty();
    Outcome::Refused(Reason::Unawaited)
}

impl Moves {
    ghost use Rattle.targets.specs.State.{no_moves, means_held, meant, without_pending};
    ghost use Rattle.targets.specs.Steps.{put_back, ByHeld, ByPending, IsMoved};

    /// None.
    pub fn none() -> Self
        ensures { result ≡ no_moves }
    {
        Moves {
            pending: None,
            held: None,
        }
    }

    // Whether a reassociation request is for the session, if for anything: there is no attempt, or
    // the FTE has the nonces of the session and not those of the attempt.
    fn means_held(&self, elements: &Elements<'_>) -> bool
        ensures { result ≡ means_held (element_fields elements.now) self.now }
    {
        let Some(pending) = &self.pending else {
            return true;
        };
        let Some(held) = &self.held else {
            return false;
        };
        !pending.is_meant(elements) && held.is_meant(elements)
    }

    /// The R0KH-ID of the fast transition that a reassociation request is for, and no octets where
    /// there is none.
    pub fn r0kh_id(&self, elements: &Elements<'_>) -> &[u8]
        ensures { result.now ≡ id_of (meant (element_fields elements.now) self.now) }
    {
        if self.means_held(elements) {
            id_of(&self.held)
        } else {
            id_of(&self.pending)
        }
    }

    // The session's fast transition takes a reassociation request, where there is one.
    fn by_held(
        held: &mut Option<Target>,
        elements: &Elements<'_>,
        newest: &GroupKey,
        rsc: u64,
        igtk: Option<(&GroupKey, u64)>,
        reply: &mut Reply,
    ) -> Outcome
        requires raw { HasRaw (element_fields elements.now) }
        ensures { ByHeld (element_fields elements.now) (news_of newest.now rsc igtk.entry) held.old
            held.new result reply.new }
    {
        match held {
            Some(held) => held.on_reassoc(elements, newest, rsc, igtk, reply),
            None => unawaited(reply),
        }
    }

    // A target is a session's from now on, or an attempt's still.
    fn put_back(&mut self, target: Target, is_session: bool)
        ensures { self.new ≡ put_back target is_session self.old }
    {
        if is_session {
            self.held = Some(target);
        } else {
            self.pending = Some(target);
        }
    }

    // The attempt takes a reassociation request, where there is one.
    fn by_pending(
        &mut self,
        elements: &Elements<'_>,
        newest: &GroupKey,
        rsc: u64,
        igtk: Option<(&GroupKey, u64)>,
        reply: &mut Reply,
    ) -> Outcome
        requires raw { HasRaw (element_fields elements.now) }
        ensures { ByPending (element_fields elements.now) (news_of newest.now rsc igtk.entry)
            self.old.pending self.old self.new result reply.new }
    {
        let Some(mut pending) = self.pending.take() else {
            return unawaited(reply);
        };
        let outcome = pending.on_reassoc(elements, newest, rsc, igtk, reply);
        self.put_back(pending, reply.installed.is_some());
        outcome
    }

    /// The fast transition that it is for takes a reassociation request.
    pub fn on_reassoc(
        &mut self,
        elements: &Elements<'_>,
        newest: &GroupKey,
        rsc: u64,
        igtk: Option<(&GroupKey, u64)>,
        reply: &mut Reply,
    ) -> Outcome
        requires raw { HasRaw (element_fields elements.now) }
        ensures { IsMoved (element_fields elements.now) (news_of newest.now rsc igtk.entry) self.old
            self.new result reply.new }
    {
        if self.means_held(elements) {
            Moves::by_held(&mut self.held, elements, newest, rsc, igtk, reply)
        } else {
            self.by_pending(elements, newest, rsc, igtk, reply)
        }
    }
}
