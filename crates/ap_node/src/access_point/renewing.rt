//! An access point renews the pairwise key of a session, and sends under it.

ghost use Rattle.std.specs.Prelude.{◌≡◌, ◌<◌, ◌≤◌, ◌+◌, ◌++◌, List, Some, length, true};
ghost use Rattle.std.specs.Prelude.{IfOk, OnOk, OnErr};
ghost use Rattle.domain_base.specs.declared.names.Node.TheVariants.{Ap, Sta};
ghost use Rattle.domain_base.specs.declared.names.Peer.TheVariants.{One};
ghost use Rattle.replay_window.specs.Numbers.{last_number};
ghost use Rattle.ccmp_guard.specs.Held.{Held as AnyHeld};
ghost use Rattle.run_journal.specs.declared.acts.Act.{Act as AnyAct};
ghost use Rattle.run_journal.specs.Events.{IsReceiverOf, renews, most_payload};
ghost use Rattle.domain_rules.specs.Network.{draw_end};
ghost use Rattle.domain_rules.specs.Rows.{Renew, Send, outcome_of};
ghost use Rattle.node_base.specs.Events.{seen};
ghost use Rattle.ap_node.specs.State.{station_at, key_in};
ghost use Rattle.ap_node.specs.Keys.{sent_under};
ghost use Rattle.ap_node.specs.Renewing.{renewable, BeginsRenewal, HasUsed};
ghost use Rattle.ap_node.specs.Takes.{IsTaken};

use crate::access_point::ApNode;
use crate::protected::send_to;
use crate::renewal::{add_renewal, is_due, obstacle, renew};
use act_memory::{Outbox, SendRoom, idle};
use domain_base::{NoMemory, Tid};
use node_base::{Here, nonce};
use run_journal::{Outcome, Reply};

impl ApNode {
    // Begins to renew the pairwise key of the session with a station. No session owes more or less
    // because of it.
    pub(crate) fn renew_key(
        &mut self,
        here: Here<'_>,
        station: u16,
        out: &mut Outbox,
    ) -> Result<Outcome, NoMemory>
        requires node { here.node ≡ Ap self.old.number }
        requires listed { self.old.number < length here.domain.now.aps }
        requires station { station < length here.domain.now.stas }
        requires renews { renews here.domain.now ≡ true }
        ensures taken { IfOk result (λ outcome. IsTaken here.entry.domain.now (Renew station)
            self.old self.new (seen out.old.acts out.new.acts outcome)) }
        ensures same { OnErr result (self.new ≡ self.old) }
        ensures kept { OnErr result (out.new.acts ≡ out.old.acts) }
    {
        if let Some(why) = obstacle(&self.stations, station, self.drawn) {
            return idle(why, out);
        }
        let room = SendRoom::take(here.alloc)?;
        out.reserve(3)?;
        self.begin_renewal(here, station, room, out);
        Ok(Outcome::Done)
    }

    // By the next nonce, where there is one. Takes no memory.
    fn begin_renewal(&mut self, here: Here<'_>, station: u16, room: SendRoom, out: &mut Outbox)
        requires node { here.node ≡ Ap self.old.number }
        requires listed { self.old.number < length here.domain.now.aps }
        requires renewable { renewable (station_at self.old.stations station).session ≡ true }
        requires draw { self.old.drawn < draw_end }
        requires room { 3 ≤ out.old.spare }
        ensures begun { (acts : List AnyAct) × (out.new.acts ≡ out.old.acts ++ acts)
            × BeginsRenewal here.entry.domain.now self.old self.new station acts }
    {
        let anonce = nonce(here.domain, here.node, self.drawn);
        let mut reply = Reply::empty();
        renew(&mut self.stations, station, &anonce, &mut reply);
        add_renewal(station, anonce, room, &reply, out);
        self.drawn += 1;
    }

    // Sends a payload to a station, and begins to renew the key under which it is sent, where that
    // is due with the packet number. No session owes more or less because of it.
    pub(crate) fn send_one(
        &mut self,
        here: Here<'_>,
        station: u16,
        tid: Option<Tid>,
        payload: &[u8],
        out: &mut Outbox,
    ) -> Result<Outcome, NoMemory>
        requires node { here.node ≡ Ap self.old.number }
        requires listed { self.old.number < length here.domain.now.aps }
        requires receiver { IsReceiverOf here.domain.now (Ap self.old.number) (One (Sta station)) }
        requires short { length payload.now ≤ most_payload }
        ensures taken { IfOk result (λ outcome. IsTaken here.entry.domain.now
            (Send (One (Sta station)) tid payload.now) self.old self.new
            (seen out.old.acts out.new.acts outcome)) }
        ensures same { OnErr result (self.new ≡ self.old) }
        ensures kept { OnErr result (out.new.acts ≡ out.old.acts) }
    {
        if !is_due(&self.stations, station, here.domain, self.drawn) {
            return self.send_under(here, station, tid, payload, out);
        }
        let room = SendRoom::take(here.alloc)?;
        out.reserve(5)?;
        let outcome = self.send_under(here, station, tid, payload, out)?;
        self.begin_renewal(here, station, room, out);
        Ok(outcome)
    }

    // Sends a payload to a station, and no more. Where it is sent it takes two places at most of
    // those that there were for acts.
    fn send_under(
        &mut self,
        here: Here<'_>,
        station: u16,
        tid: Option<Tid>,
        payload: &[u8],
        out: &mut Outbox,
    ) -> Result<Outcome, NoMemory>
        requires node { here.node ≡ Ap self.old.number }
        requires listed { self.old.number < length here.domain.now.aps }
        requires receiver { IsReceiverOf here.domain.now (Ap self.old.number) (One (Sta station)) }
        requires short { length payload.now ≤ most_payload }
        ensures used { OnOk result (HasUsed self.old self.new station) }
        ensures acts { OnOk result (out.new.acts ≡ out.old.acts ++ sent_under
            here.entry.domain.now (Ap self.old.number) (One (Sta station)) tid payload.now
            (key_in (station_at self.old.stations station))) }
        ensures outcome { IfOk result (λ came. came ≡ outcome_of (sent_under
            here.entry.domain.now (Ap self.old.number) (One (Sta station)) tid payload.now
            (key_in (station_at self.old.stations station)))) }
        ensures spare { OnOk result ((k : AnyHeld)
            → key_in (station_at self.old.stations station) ≡ Some k
            → k.used < last_number → out.old.spare ≤ out.new.spare + 2) }
        ensures same { OnErr result (self.new ≡ self.old) }
        ensures kept { OnErr result (out.new.acts ≡ out.old.acts) }
    {
        send_to(&mut self.stations, here, station, tid, payload, out)
    }
}
