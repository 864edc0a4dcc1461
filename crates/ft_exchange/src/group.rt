//! Group keys under key wrap in the FTE of a reassociation response (IEEE Std 802.11-2020,
//! 9.4.2.47).

ghost use Rattle.std.specs.Prelude.{◌≡◌, ◌≤◌, ◌<◌, ◌^◌, ◌==◌, ◌||◌, false, true, Some, None};
ghost use Rattle.std.specs.Prelude.{length, option_map, is_some, MatchOption, IfSome};
ghost use Rattle.std.specs.Option.{ForSome};
ghost use Rattle.rsn_elements.specs.Fields.{fte_fields, wrapped_gtk_fields};
ghost use Rattle.rsn_elements.specs.Fields.{wrapped_igtk_fields};
ghost use Rattle.rsn_elements.specs.Sent.{ipn_octets};
ghost use Rattle.eapol_key.specs.Sent.{rsc_octets};
ghost use Rattle.domain_rules.specs.Frames.{wrapped};
ghost use Rattle.domain_rules.specs.FastTransition.{to_unwrap, gtk_in, is_wrapped_gtk};
ghost use Rattle.domain_rules.specs.FastTransition.{igtk_to_unwrap, igtk_in, is_wrapped_igtk};
ghost use Rattle.domain_rules.specs.IntegrityKeys.{ipn_value};
ghost use Rattle.domain_rules.specs.TransitionRows.{carried_by, carried_igtk_by};
ghost use Rattle.ft_exchange.specs.Group.{IsOpened, AreOpened, group_key, packet_number_of};
ghost use Rattle.ft_exchange.specs.Group.{gtk_rsc, igtk_ipn, plain_of, is_bad, has_bad, igtk_by};
ghost use Rattle.ft_exchange.specs.Group.{carries_keys, IsIgtkIn, AreCarried};
ghost use Rattle.ft_exchange.specs.Group.{news_in, given_to, igtk_news_in, igtk_given};
ghost use Rattle.ft_exchange.specs.Group.{became, all_given};

use domain_base::array_at;
use group_key::{GroupKey, GroupMemory, IgtkNews};
use key_wrap::{unwrap, wrap};
use rsn_elements::{Fte, WrappedGtk, WrappedIgtk};
use run_journal::GtkNews;

// The octets of a group key, and those under its wrap.
const KEY_LEN: usize = 16;

const WRAPPED_LEN: usize = 24;

/// What came of wrapped octets in an FTE.
#[derive(Clone, Copy)]
pub enum Opened {
    /// There are none, or not so many as a group key of 16 octets has.
    Nothing,
    /// They have no plain text.
    Bad,
    /// The group key.
    Plain([u8; 16]),
}

impl Opened {
    // They have no plain text.
    fn is_bad(self) -> bool
        ensures { result ≡ is_bad self }
    {
        match self {
            Opened::Bad => true,
            _ => false,
        }
    }
}

/// What came of the wrapped octets of each kind.
#[derive(Clone, Copy)]
pub struct Unwrapped {
    /// Those of a GTK.
    pub gtk: Opened,
    /// Those of an IGTK, where management frames are protected; else nothing.
    pub igtk: Opened,
}

impl Unwrapped {
    /// What the wrapped octets of an FTE come to under the KEK, where management frames are
    /// protected or not.
    pub fn of(kek: &[u8; 16], mfp: bool, fte: Option<Fte<'_>>) -> Self
        ensures { AreOpened kek.now mfp (option_map fte_fields fte.entry) result }
    {
        let gtk = open(kek, fte);
        let igtk = open_igtk(kek, mfp, fte);
        Unwrapped { gtk, igtk }
    }

    /// Those of one kind have no plain text.
    pub fn has_bad(self) -> bool
        ensures { result ≡ has_bad self }
    {
        self.gtk.is_bad() || self.igtk.is_bad()
    }
}

/// A group key that an FTE carries.
#[derive(Clone, Copy)]
pub struct CarriedKey {
    /// The key.
    pub key: [u8; 16],
    /// Its key id: of a GTK from 1 to 3, of an IGTK 4 or 5.
    pub id: u8,
    /// Its packet number so far: the RSC, or the IPN.
    pub rsc: u64,
}

/// The group keys that an FTE carries.
#[derive(Clone, Copy)]
pub struct CarriedKeys {
    /// The GTK.
    pub gtk: CarriedKey,
    /// The IGTK, where management frames are protected.
    pub igtk: Option<CarriedKey>,
}

/// What became of the group keys of a response.
#[derive(Clone, Copy)]
pub struct Became {
    /// The GTK.
    pub gtk: GtkNews,
    /// The IGTK, where management frames are protected.
    pub igtk: Option<GtkNews>,
}

/// The group key under key wrap.
#[tactic(auto, using(crate::proofs::Unwrapping::wrapped_is))]
pub fn wrapped(kek: &[u8; 16], key: &[u8; 16]) -> [u8; WRAPPED_LEN]
    ensures { result ≡ wrapped kek.now key.now }
{
    let mut out = [0; WRAPPED_LEN];
    wrap(kek, key, &mut out);
    out
}

/// The IGTK under key wrap, where there is one.
pub fn wrapped_igtk(kek: &[u8; 16], igtk: Option<IgtkNews>) -> [u8; WRAPPED_LEN]
    ensures { IfSome igtk (λ k. result ≡ wrapped kek.now k.igtk.key) }
{
    match igtk {
        Some(news) => wrapped(kek, &news.igtk.key),
        None => [0; WRAPPED_LEN],
    }
}

// A packet number as the field RSC has it: six octets, the lowest first.
fn rsc_octets(rsc: u64) -> [u8; 8]
    ensures { result ≡ rsc_octets rsc }
{
    let [a, b, c, d, e, f, _, _] = rsc.to_le_bytes();
    [a, b, c, d, e, f, 0, 0]
}

// A packet number as the field IPN has it: six octets, the lowest first.
fn ipn_octets(ipn: u64) -> [u8; 6]
    ensures { result ≡ ipn_octets ipn }
{
    let [a, b, c, d, e, f, _, _] = ipn.to_le_bytes();
    [a, b, c, d, e, f]
}

/// The group key, wrapped, as a subelement: its key id, and how many packet numbers were used.
pub fn subelement<'a>(group: &GroupKey, rsc: u64, wrapped: &'a [u8]) -> WrappedGtk<'a>
    ensures { wrapped_gtk_fields result ≡ record {
      information = group.now.id;
      key_length = 16;
      rsc = rsc_octets rsc;
      wrapped = wrapped.now;
    } }
{
    WrappedGtk {
        information: u16::from(group.id),
        key_length: 16,
        rsc: rsc_octets(rsc),
        wrapped,
    }
}

// The IGTK, wrapped, as a subelement.
fn one_subelement<'a>(igtk: &IgtkNews, wrapped: &'a [u8]) -> WrappedIgtk<'a>
    ensures fields { wrapped_igtk_fields result ≡ igtk_by wrapped.now igtk.now }
    ensures same { result.wrapped.now ≡ wrapped.now }
{
    WrappedIgtk {
        id: u16::from(igtk.igtk.id),
        ipn: ipn_octets(igtk.ipn),
        key_length: 16,
        wrapped,
    }
}

/// The same of an IGTK, where there is one.
pub fn igtk_subelement<'a>(igtk: Option<IgtkNews>, wrapped: &'a [u8]) -> Option<WrappedIgtk<'a>>
    requires { length wrapped.now ≤ 24 }
    ensures fields { option_map wrapped_igtk_fields result ≡ option_map (igtk_by wrapped.now) igtk }
    ensures few { ForSome result (λ g. length g.wrapped.now ≤ 24) }
{
    match igtk {
        Some(news) => Some(one_subelement(&news, wrapped)),
        None => None,
    }
}

// Unwraps the octets.
#[tactic(auto, using(crate::proofs::Unwrapping::opened_plain, crate::proofs::Unwrapping::opened_bad))]
fn open_wrapped(kek: &[u8; 16], octets: &[u8]) -> Opened
    requires { length octets.now ≡ WRAPPED_LEN }
    ensures { IsOpened kek.now (Some octets.now) result }
{
    let mut out = [0; KEY_LEN];
    match unwrap(kek, octets, &mut out) {
        Ok(_) => Opened::Plain(out),
        Err(_) => Opened::Bad,
    }
}

// What the wrapped octets of a GTK come to.
fn open(kek: &[u8; 16], fte: Option<Fte<'_>>) -> Opened
    ensures { IsOpened kek.now (to_unwrap (option_map fte_fields fte.entry)) result }
{
    let Some(fte) = fte else {
        return Opened::Nothing;
    };
    let Some(gtk) = fte.gtk else {
        return Opened::Nothing;
    };
    if gtk.wrapped.len() != WRAPPED_LEN {
        return Opened::Nothing;
    }
    open_wrapped(kek, gtk.wrapped)
}

// Those of an IGTK in a network that protects management frames.
fn open_protected(kek: &[u8; 16], fte: Option<Fte<'_>>) -> Opened
    ensures { IsOpened kek.now (igtk_to_unwrap true (option_map fte_fields fte.entry)) result }
{
    let Some(fte) = fte else {
        return Opened::Nothing;
    };
    let Some(igtk) = fte.igtk else {
        return Opened::Nothing;
    };
    if igtk.wrapped.len() != WRAPPED_LEN {
        return Opened::Nothing;
    }
    open_wrapped(kek, igtk.wrapped)
}

// And in any network: where management frames are not protected none is looked at.
#[tactic(auto, using(crate::proofs::Unwrapping::opened_protected, crate::proofs::Unwrapping::opened_unprotected))]
fn open_igtk(kek: &[u8; 16], mfp: bool, fte: Option<Fte<'_>>) -> Opened
    ensures { IsOpened kek.now (igtk_to_unwrap mfp (option_map fte_fields fte.entry)) result }
{
    if mfp {
        open_protected(kek, fte)
    } else {
        Opened::Nothing
    }
}

/// The packet number in the RSC field: six octets, the lowest first.
fn packet_number(rsc: [u8; 8]) -> u64
    ensures { result ≡ packet_number_of rsc }
{
    let [a, b, c, d, e, f, _, _] = rsc;
    u64::from_le_bytes([a, b, c, d, e, f, 0, 0])
}

// The packet number in the IPN field: six octets, the lowest first.
fn ipn_value(ipn: [u8; 6]) -> u64
    ensures { result ≡ ipn_value ipn }
{
    let [a, b, c, d, e, f] = ipn;
    u64::from_le_bytes([a, b, c, d, e, f, 0, 0])
}

// The subelement is a group key of 16 octets with a key id other than 0.
fn is_group_key(gtk: &WrappedGtk<'_>) -> bool
    ensures { result ≡ is_wrapped_gtk (Some (wrapped_gtk_fields gtk.now)) }
{
    gtk.key_length == 16 && gtk.wrapped.len() == WRAPPED_LEN && !(gtk.information % 4 == 0)
}

// The key id of an IGTK, where it is one.
fn igtk_id(id: u16) -> Option<u8>
    ensures { MatchOption result ((id == 4 || id == 5) ≡ false)
        (λ i. ((id == 4 || id == 5) ≡ true) × (i ≡ id)) }
{
    match id {
        4 => Some(4),
        5 => Some(5),
        _ => None,
    }
}

// The group key that an FTE carries, where it carries one that was unwrapped.
fn carried(fte: Option<Fte<'_>>, opened: Opened) -> Option<CarriedKey>
    requires { is_some (plain_of opened) ≡ is_some (to_unwrap (option_map fte_fields fte)) }
    ensures { let f = option_map fte_fields fte.entry in
        MatchOption result (is_wrapped_gtk (gtk_in f) ≡ false)
        (λ c. (is_wrapped_gtk (gtk_in f) ≡ true)
        × (carried_by (gtk_in f) (plain_of opened) ≡ group_key c)
        × (c.rsc ≡ gtk_rsc (gtk_in f))) }
{
    let Some(fte) = fte else { return None };
    let Some(gtk) = fte.gtk else { return None };
    if !is_group_key(&gtk) {
        return None;
    }
    let Opened::Plain(key) = opened else {
        return None;
    };
    Some(CarriedKey {
        key,
        id: (gtk.information % 4) as u8,
        rsc: packet_number(gtk.rsc),
    })
}

// The key id of a subelement that is an IGTK of 16 octets.
#[tactic(auto, using(crate::proofs::Carrying::id_found))]
fn integrity_id(igtk: &WrappedIgtk<'_>) -> Option<u8>
    ensures { MatchOption result (is_wrapped_igtk (Some (wrapped_igtk_fields igtk.now)) ≡ false)
        (λ i. (is_wrapped_igtk (Some (wrapped_igtk_fields igtk.now)) ≡ true)
        × (i ≡ igtk.now.id)) }
{
    if igtk.key_length != 16 {
        return None;
    }
    if igtk.wrapped.len() != WRAPPED_LEN {
        return None;
    }
    igtk_id(igtk.id)
}

// The IGTK that an FTE carries, where it carries one that was unwrapped.
fn carried_igtk(fte: Option<Fte<'_>>, opened: Opened) -> Option<CarriedKey>
    requires { is_some (plain_of opened)
        ≡ is_some (igtk_to_unwrap true (option_map fte_fields fte)) }
    ensures { let f = option_map fte_fields fte.entry in
        MatchOption result (is_wrapped_igtk (igtk_in f) ≡ false)
        (λ c. (is_wrapped_igtk (igtk_in f) ≡ true)
        × (carried_igtk_by (igtk_in f) (plain_of opened) ≡ group_key c)
        × (c.rsc ≡ igtk_ipn (igtk_in f))) }
{
    let Some(fte) = fte else { return None };
    let Some(igtk) = fte.igtk else { return None };
    let Some(id) = integrity_id(&igtk) else {
        return None;
    };
    let Opened::Plain(key) = opened else {
        return None;
    };
    Some(CarriedKey {
        key,
        id,
        rsc: ipn_value(igtk.ipn),
    })
}

// A GTK with the IGTK that an FTE carries, where it carries one that was unwrapped.
#[tactic(auto, using(crate::proofs::Carrying::igtk_of))]
fn with_igtk(fte: Option<Fte<'_>>, opened: Opened, gtk: CarriedKey) -> Option<CarriedKeys>
    requires { is_some (plain_of opened)
        ≡ is_some (igtk_to_unwrap true (option_map fte_fields fte)) }
    ensures { let f = option_map fte_fields fte.entry in
        MatchOption result (is_wrapped_igtk (igtk_in f) ≡ false)
        (λ c. (c.gtk ≡ gtk) × IsIgtkIn true f opened c.igtk) }
{
    match carried_igtk(fte, opened) {
        None => None,
        Some(igtk) => Some(CarriedKeys {
            gtk,
            igtk: Some(igtk),
        }),
    }
}

/// The group keys that an FTE carries, where it carries those that are asked for and they were
/// unwrapped: a GTK, and where management frames are protected an IGTK.
#[tactic(auto, using(crate::proofs::Carrying::without_gtk, crate::proofs::Carrying::some_protected))]
pub fn carried_keys(mfp: bool, fte: Option<Fte<'_>>, unwrapped: Unwrapped) -> Option<CarriedKeys>
    requires gtk { is_some (plain_of unwrapped.gtk)
        ≡ is_some (to_unwrap (option_map fte_fields fte)) }
    requires igtk { is_some (plain_of unwrapped.igtk)
        ≡ is_some (igtk_to_unwrap mfp (option_map fte_fields fte)) }
    ensures { let f = option_map fte_fields fte.entry in
        MatchOption result (carries_keys mfp f ≡ false)
        (λ c. (carries_keys mfp f ≡ true) × AreCarried mfp f unwrapped c) }
{
    let Some(gtk) = carried(fte, unwrapped.gtk) else {
        return None;
    };
    if mfp {
        with_igtk(fte, unwrapped.igtk, gtk)
    } else {
        Some(CarriedKeys { gtk, igtk: None })
    }
}

// Gives a group key to the memory, and answers what became of it: one that is kept goes on under
// the key id that it was installed with.
fn give(memory: &mut GroupMemory, group: CarriedKey) -> GtkNews
    ensures news { result ≡ news_in group memory.old }
    ensures memory { memory.new ≡ given_to group memory.old }
{
    let key = group.key;
    let news = match memory.id_of(&key, group.id) {
        None => GtkNews {
            resumed: false,
            id: group.id,
            key,
        },
        Some(id) => GtkNews {
            resumed: true,
            id,
            key,
        },
    };
    memory.give(&key, group.id, group.rsc);
    news
}

// The same of an IGTK, where there is one.
fn give_igtk(memory: &mut GroupMemory, igtk: Option<CarriedKey>) -> Option<GtkNews>
    ensures news { result ≡ igtk_news_in igtk memory.old }
    ensures memory { memory.new ≡ igtk_given igtk memory.old }
{
    match igtk {
        None => None,
        Some(carried) => Some(give(memory, carried)),
    }
}

/// Gives the group keys of a response to the memory, and answers what became of them.
pub fn give_all(memory: &mut GroupMemory, keys: CarriedKeys) -> Became
    ensures news { result ≡ became keys memory.old }
    ensures memory { memory.new ≡ all_given keys memory.old }
{
    let gtk = give(memory, keys.gtk);
    let igtk = give_igtk(memory, keys.igtk);
    Became { gtk, igtk }
}
