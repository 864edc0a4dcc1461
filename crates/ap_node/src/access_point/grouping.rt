//! The group keys of an access point: it draws new ones and gives them to each session, and it
//! announces under the current IGTK (IEEE Std 802.11-2020, 12.7.7 and 12.5.4).

ghost use Rattle.std.specs.Prelude.{◌≡◌, ◌<◌, ◌≤◌, ◌+◌, ◌^◌, ◌++◌, length, true, is_some};
ghost use Rattle.std.specs.Prelude.{IfOk, OnErr, vec_len};
ghost use Rattle.std.specs.Option.{ForSome};
ghost use Rattle.domain_base.specs.declared.names.Node.TheVariants.{Ap};
ghost use Rattle.run_journal.specs.declared.acts.Outcome.TheVariants.{Done};
ghost use Rattle.run_journal.specs.Events.{most_payload, protects};
ghost use Rattle.domain_rules.specs.Network.{InForm, draw_end};
ghost use Rattle.domain_rules.specs.Rows.{Rekey, Announce};
ghost use Rattle.group_key.specs.News.{FitsNews, newest_igtk};
ghost use Rattle.node_base.specs.Events.{seen};
ghost use Rattle.ap_node.specs.State.{newest_uses, newest_announced, newest_of};
ghost use Rattle.ap_node.specs.Drawing.{last_of};
ghost use Rattle.ap_node.specs.Switching.{is_due, switched, due_acts};
ghost use Rattle.ap_node.specs.Takes.{IsDone, IsTaken};

use crate::access_point::ApNode;
use crate::drawing::{add_drawn, can_draw, draw_keys, number_after};
use crate::giving::{give_all, take_rooms};
use crate::newest::unused_news;
use crate::sending::{Sending, add_made, announce_under};
use act_memory::{Outbox, SendRoom, idle};
use domain_base::NoMemory;
use group_key::{IgtkNews, News};
use node_base::{Here, address};
use run_journal::{Outcome, Why};

impl ApNode {
    // How many packet numbers were used under the newest GTK: none as long as another is current.
    fn newest_uses(&self) -> u64
        ensures uses { result ≡ newest_uses self.now }
        ensures few { result < 2 ^ 48 }
    {
        if self.group.is_pending() {
            return 0;
        }
        self.sending.gtk.used()
    }

    // How many were used under the newest IGTK.
    fn newest_announced(&self) -> u64
        ensures uses { result ≡ newest_announced self.now }
        ensures few { result < 2 ^ 48 }
    {
        if self.group.is_pending() {
            return 0;
        }
        self.sending.announced()
    }

    // The newest IGTK, where there is one, and how many packet numbers were used under it.
    fn newest_igtk(&self) -> Option<IgtkNews>
        ensures igtk { result ≡ newest_igtk self.now.group.igtk (newest_announced self.now) }
        ensures few { ForSome result (λ k. k.ipn < 2 ^ 48) }
    {
        match self.group.newest_igtk() {
            Some(igtk) => {
                let ipn = self.newest_announced();
                Some(IgtkNews { igtk, ipn })
            }
            None => None,
        }
    }

    // The newest group keys, and how many packet numbers were used under each: none as long as
    // others are current.
    pub(crate) fn newest(&self) -> News
        ensures news { result ≡ newest_of self.now }
        ensures fits { FitsNews result }
    {
        let gtk = self.group.newest();
        let rsc = self.newest_uses();
        let igtk = self.newest_igtk();
        News { gtk, rsc, igtk }
    }

    // Are the newest group keys not in use, and owes no session an answer for them?
    fn is_due(&self) -> bool
        ensures { result ≡ is_due self.now }
    {
        if !self.group.is_pending() {
            return false;
        }
        self.owing == 0
    }

    // The newest group keys come into use, where no session owes an answer for them
    // (IEEE Std 802.11-2020, 12.7.7). Takes no memory.
    pub(crate) fn switch(&mut self, here: Here<'_>, out: &mut Outbox)
        requires node { here.node ≡ Ap self.old.number }
        requires listed { self.old.number < length here.domain.now.aps }
        requires room { 2 ≤ out.old.spare }
        ensures state { self.new ≡ switched self.old }
        ensures acts { out.new.acts ≡ out.old.acts ++ due_acts here.entry.domain.now self.old }
        ensures spare { out.old.spare ≤ out.new.spare + 2 }
    {
        if !self.is_due() {
            return;
        }
        let gtk = self.group.newest();
        let igtk = self.group.newest_igtk();
        self.group.switch();
        self.sending = Sending::made(&gtk, igtk);
        add_made(&gtk, igtk, address(here.domain, here.node), out);
    }

    // Does it have IGTKs?
    fn has_igtk(&self) -> bool
        ensures { result ≡ is_some self.now.group.igtk }
    {
        self.group.newest_igtk().is_some()
    }

    // Draws new group keys and gives them to each session.
    pub(crate) fn rekey(&mut self, here: Here<'_>, out: &mut Outbox) -> Result<Outcome, NoMemory>
        requires node { here.node ≡ Ap self.old.number }
        requires form { InForm here.domain.now }
        requires listed { self.old.number < length here.domain.now.aps }
        ensures taken { IfOk result (λ outcome. IsTaken here.entry.domain.now Rekey
            self.old self.new (seen out.old.acts out.new.acts outcome)) }
        ensures same { OnErr result (self.new ≡ self.old) }
        ensures kept { OnErr result (out.new.acts ≡ out.old.acts) }
    {
        if self.group.is_pending() {
            return idle(Why::RekeyPending, out);
        }
        let protects = self.has_igtk();
        if !can_draw(protects, self.drawn) {
            return idle(Why::Spent, out);
        }
        let count = here.domain.stas.len() as u16;
        let rooms = take_rooms(here.alloc, usize::from(count))?;
        out.reserve(usize::from(count) + 4)?;
        self.renew(here, protects, count, rooms, out);
        Ok(self.end(here, Outcome::Done, out))
    }

    // New group keys, with an IGTK or without one, given to each session. There is room for the
    // switch. Takes no memory.
    fn renew(
        &mut self,
        here: Here<'_>,
        protects: bool,
        count: u16,
        rooms: Vec<SendRoom>,
        out: &mut Outbox,
    )
        requires node { here.node ≡ Ap self.old.number }
        requires listed { self.old.number < length here.domain.now.aps }
        requires in_use { self.old.group.gtk.newest.place ≡ self.old.group.gtk.current.place }
        requires protects { protects ≡ is_some self.old.group.igtk }
        requires draw { last_of protects self.old.drawn < draw_end }
        requires count { count ≡ length here.domain.now.stas }
        requires rooms { count ≤ vec_len rooms }
        requires room { count + 4 ≤ out.old.spare }
        ensures done { IsDone here.entry.domain.now Rekey self.old self.new
            (seen out.old.acts out.new.acts Done) }
        ensures number { self.new.number ≡ self.old.number }
        ensures room { 2 ≤ out.new.spare }
    {
        let keys = draw_keys(protects, here.domain, here.node, self.drawn);
        if self.group.rekey(keys.gtk, keys.igtk).is_err() {
            unreachable!();
        }
        self.drawn = number_after(protects, self.drawn);
        add_drawn(&keys, out);
        let gtk = self.group.newest();
        let igtk = self.group.newest_igtk();
        let news = unused_news(gtk, igtk);
        self.owing = give_all(&mut self.stations, count, &news, rooms, out);
    }

    // Sends an announcement to all its stations, under the current IGTK.
    pub(crate) fn announce(
        &mut self,
        here: Here<'_>,
        payload: &[u8],
        out: &mut Outbox,
    ) -> Result<Outcome, NoMemory>
        requires node { here.node ≡ Ap self.old.number }
        requires listed { self.old.number < length here.domain.now.aps }
        requires protects { protects here.domain.now ≡ true }
        requires short { length payload.now ≤ most_payload }
        ensures taken { IfOk result (λ outcome. IsTaken here.entry.domain.now
            (Announce payload.now) self.old self.new (seen out.old.acts out.new.acts outcome)) }
        ensures same { OnErr result (self.new ≡ self.old) }
        ensures kept { OnErr result (out.new.acts ≡ out.old.acts) }
    {
        announce_under(&mut self.sending.igtk, here, payload, out)
    }
}
