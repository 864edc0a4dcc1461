//! A changed key of a station, or of all.

ghost use Rattle.std.specs.Prelude.{◌≡◌, ◌<◌, ◌≤◌, ◌+◌, ◌++◌, List, length, true, IfOk, IsOk, OnErr};
ghost use Rattle.domain_base.specs.declared.names.Node.TheVariants.{Ap};
ghost use Rattle.key_holders.specs.Rows.{is_in};
ghost use Rattle.run_journal.specs.declared.acts.Act.{Act as AnyAct};
ghost use Rattle.run_journal.specs.Events.{NamesSta};
ghost use Rattle.domain_rules.specs.Network.{InForm};
ghost use Rattle.node_base.specs.Changing.{most_changed};
ghost use Rattle.node_base.specs.Events.{seen};
ghost use Rattle.ap_node.specs.Changing.{HasChanged, IsRekeyed, RekeysNamed};
ghost use Rattle.ap_node.specs.Putting.{LeavesRest};

use crate::access_point::ApNode;
use crate::counting::{owes, recounted};
use crate::expiring::{add_changed, drop_part};
use crate::revoking::revoke_old;
use act_memory::Outbox;
use domain_base::NoMemory;
use key_holders::Holders;
use node_base::{Here, most_changed};
use run_journal::Outcome;

impl ApNode {
    // The key of a station is changed, or that of all where none is named.
    pub(crate) fn change<H: Holders>(
        &mut self,
        here: Here<'_>,
        sta: Option<u16>,
        psk: &[u8; 32],
        holders: &mut H,
        out: &mut Outbox,
    ) -> Result<Outcome, NoMemory>
        requires node { here.node ≡ Ap self.old.number }
        requires form { InForm here.domain.now }
        requires listed { self.old.number < length here.domain.now.aps }
        requires sta { NamesSta here.domain.now sta }
        requires has { is_in self.old.number (H.has holders.old) ≡ true }
        ensures changed { IfOk result (λ outcome. HasChanged here.entry.domain.now sta psk.now
            self.old self.new (H.rows holders.old self.old.number)
            (H.rows holders.new self.old.number) (seen out.old.acts out.new.acts outcome)) }
        ensures same { OnErr result (self.new ≡ self.old) }
        ensures same_rows { OnErr result
            (H.rows holders.new self.old.number ≡ H.rows holders.old self.old.number) }
        ensures kept { OnErr result (out.new.acts ≡ out.old.acts) }
        ensures others { LeavesRest self.old.number (H.ids holders.old) (H.ids holders.new)
            (H.has holders.old) (H.has holders.new) (H.rows holders.old) (H.rows holders.new) }
        ensures no_less { H.no_less holders.old holders.new }
        ensures always { most_changed (length here.entry.domain.now.stas) ≤ out.old.spare
            → IsOk result }
        ensures spare { most_changed (length here.entry.domain.now.stas) ≤ out.old.spare
            → out.old.spare ≤ out.new.spare + most_changed (length here.entry.domain.now.stas) }
    {
        out.reserve(most_changed(here.domain))?;
        self.change_named(here, sta, psk, holders, out);
        Ok(self.end(here, Outcome::Done, out))
    }

    // That of the station that is named, or of each, in order. The switch is to come, and there is
    // room for it. Takes no memory.
    fn change_named<H: Holders>(
        &mut self,
        here: Here<'_>,
        sta: Option<u16>,
        psk: &[u8; 32],
        holders: &mut H,
        out: &mut Outbox,
    )
        requires form { InForm here.domain.now }
        requires listed { self.old.number < length here.domain.now.aps }
        requires sta { NamesSta here.domain.now sta }
        requires has { is_in self.old.number (H.has holders.old) ≡ true }
        requires room { most_changed (length here.domain.now.stas) ≤ out.old.spare }
        ensures rekeyed { (g : List AnyAct) × (out.new.acts ≡ out.old.acts ++ g)
            × RekeysNamed here.entry.domain.now sta psk.now self.old self.new
            (H.rows holders.old self.old.number) (H.rows holders.new self.old.number) g }
        ensures number { self.new.number ≡ self.old.number }
        ensures others { LeavesRest self.old.number (H.ids holders.old) (H.ids holders.new)
            (H.has holders.old) (H.has holders.new) (H.rows holders.old) (H.rows holders.new) }
        ensures no_less { H.no_less holders.old holders.new }
        ensures room { 2 ≤ out.new.spare }
        ensures spare { out.old.spare + 2
            ≤ out.new.spare + most_changed (length here.entry.domain.now.stas) }
    {
        match sta {
            Some(station) => self.change_one(here, station, psk, holders, out),
            None => {
                let count = here.domain.stas.len() as u16;
                let mut station: u16 = 0;
                while station < count {
                    self.change_one(here, station, psk, holders, out);
                    station += 1;
                }
            }
        }
    }

    // That of one station: the row of the old key is revoked, and what there is with the station
    // under it is dropped. Takes no memory.
    fn change_one<H: Holders>(
        &mut self,
        here: Here<'_>,
        station: u16,
        psk: &[u8; 32],
        holders: &mut H,
        out: &mut Outbox,
    )
        requires form { InForm here.domain.now }
        requires listed { self.old.number < length here.domain.now.aps }
        requires station { station < length here.domain.now.stas }
        requires has { is_in self.old.number (H.has holders.old) ≡ true }
        requires room { 4 ≤ out.old.spare }
        ensures rekeyed { (g : List AnyAct) × (out.new.acts ≡ out.old.acts ++ g)
            × IsRekeyed here.entry.domain.now station psk.now self.old self.new
            (H.rows holders.old self.old.number) (H.rows holders.new self.old.number) g }
        ensures number { self.new.number ≡ self.old.number }
        ensures others { LeavesRest self.old.number (H.ids holders.old) (H.ids holders.new)
            (H.has holders.old) (H.has holders.new) (H.rows holders.old) (H.rows holders.new) }
        ensures no_less { H.no_less holders.old holders.new }
        ensures spare { out.old.spare ≤ out.new.spare + 4 }
    {
        revoke_old(here, self.number, station, &self.derived, holders, out);
        let newest = self.group.newest();
        let owed = owes(&self.stations, station, &newest);
        let (had_attempt, had_session) = drop_part(&mut self.stations, station);
        self.owing = recounted(self.owing, owed, false);
        add_changed(station, had_attempt, had_session, psk, out);
    }
}
