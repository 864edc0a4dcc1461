//! What an attempt has from M2 on.

ghost use Rattle.std.specs.Prelude.{◌≡◌, ◌≤◌, nat_lt, length};
ghost use Rattle.air_frame.specs.Sent.{IsAddress};
ghost use Rattle.run_journal.specs.Replies.{IsWhole};
ghost use Rattle.group_key.specs.News.{FitsNews};
ghost use Rattle.frame_making.specs.Replied.{Keeps};

use domain_base::ShortOctets;
use frame_making::{MOST_M3_DATA, write_m3};
use group_key::{GroupKey, News};
use mac_prf::KeptMicKey;
use node_base::Ends;
use run_journal::{Keyed, Reply};
use std::marker::Model;

/// The pairwise key, and the group keys, with their counts of packet numbers, and the whole key data
/// that its M3 carry.
#[derive(Drop)]
pub struct Agreement {
    key: Keyed,
    news: News,
    plain: ShortOctets<MOST_M3_DATA>,
}

impl Model for Agreement {
    ghost use Rattle.std.specs.Prelude.{◌≤◌, length};
    ghost use Rattle.group_key.specs.News.{FitsNews};
    ghost use Rattle.authenticator.specs.Agreed.{Agreed};

    ghost Value = { Agreed };

    ghost view = { λ a. record {
      key = a.key;
      news = a.news;
      plain = a.plain;
    } };

    ghost invariant = { λ a. FitsNews a.news × (length a.plain ≤ 259) };
}

impl Agreement {
    ghost use Rattle.authenticator.specs.Sends.{SendsM3};

    /// Of these keys, with these counts, and that key data.
    pub fn of(key: &Keyed, news: &News, plain: ShortOctets<MOST_M3_DATA>) -> Self
        requires news { FitsNews news.now }
        requires few { length plain ≤ MOST_M3_DATA }
        ensures { result ≡ record { key = key.now; news = news.now; plain = plain } }
    {
        let (key, news) = (*key, *news);
        Agreement { key, news, plain }
    }

    /// The pairwise key.
    pub fn key(&self) -> &Keyed
        ensures { result.now ≡ self.now.key }
    {
        &self.key
    }

    /// Whether the group keys are older than the one with that GTK: they were drawn before it.
    pub fn is_older(&self, newest: &GroupKey) -> bool
        ensures { result ≡ nat_lt self.now.news.gtk.place newest.now.place }
    {
        self.news.gtk.place < newest.place
    }

    /// Writes M3, the first or once more (IEEE Std 802.11-2020, 12.7.6.4).
    #[tactic(auto, using(frame_making::proofs::GroupKdes::rsc_low))]
    pub fn send_m3(&self, ends: &Ends, kept: &KeptMicKey, counter: u64, reply: &mut Reply)
        ensures sends { SendsM3 ends.now self.now counter reply.new }
        ensures keeps { Keeps reply.old reply.new }
        ensures fits { IsWhole reply.new }
        ensures addresses { IsAddress ends.now.own.0 × IsAddress ends.now.peer.0 }
    {
        write_m3(
            ends,
            kept,
            &self.key,
            counter,
            self.plain.as_slice(),
            self.news.rsc,
            reply,
        );
    }
}
