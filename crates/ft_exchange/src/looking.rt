//! Key holders asked for what an authentication request asks for.

ghost use Rattle.std.specs.Prelude.{◌≡◌, ℕ, Some, None, true};
ghost use Rattle.std.specs.Option.{option_copied};
ghost use Rattle.key_holders.specs.Rows.{is_in};
ghost use Rattle.key_holders.specs.Pulls.{Answers, IsNamed};
ghost use Rattle.ft_exchange.specs.Asking.{asked_fields, unnamed_reason, granted_by, IsLooked};

use crate::elements::single;
use crate::place::Place;
use crate::request::{Asked, has_holder};
use key_hierarchy::{PmkR1, PullAnswer};
use key_holders::Holders;
use run_journal::{Domain, Reason, Reply};

/// What a new attempt is made from.
#[derive(Clone, Copy)]
pub struct Granted {
    /// The nonce that was drawn for it.
    pub anonce: [u8; 32],
    /// PMKR0Name, as it was asked for.
    pub asked: [u8; 16],
    /// The PMK-R1.
    pub r1: PmkR1,
}

// What an answer of the key holders grants, or why the request is refused.
fn grant(answer: PullAnswer, asked: [u8; 16], anonce: Option<&[u8; 32]>) -> Result<Granted, Reason>
    ensures { result ≡ granted_by answer asked (option_copied anonce.entry) }
{
    match answer {
        PullAnswer::NoHolder => Err(Reason::NoHolder),
        PullAnswer::Absent => Err(Reason::Name),
        PullAnswer::Found(r1) => match anonce {
            Some(anonce) => Ok(Granted {
                anonce: *anonce,
                asked,
                r1,
            }),
            None => Err(Reason::Spent),
        },
    }
}

// Why a request is refused that does not ask for one name.
fn unnamed(domain: &Domain, r0kh_id: &[u8]) -> Reason
    ensures { result ≡ unnamed_reason domain.now r0kh_id.now }
{
    if has_holder(domain, r0kh_id) {
        Reason::Name
    } else {
        Reason::NoHolder
    }
}

/// Asks the key holders, where the request asks for one name. What they answer comes into the
/// reply.
pub fn look<H: Holders>(
    place: Place,
    domain: &Domain,
    asked: &Asked<'_>,
    anonce: Option<&[u8; 32]>,
    holders: &mut H,
    reply: &mut Reply,
) -> Result<Granted, Reason>
    ensures looked { IsLooked domain.now (asked_fields asked.now) (option_copied anonce.entry)
        (λ name answer. H.pulls holders.old asked.now.r0kh_id.now name place.own place.peer
        holders.new answer
        × Answers (H.ids holders.old) (H.has holders.old) (H.rows holders.old)
        asked.now.r0kh_id.now name place.own place.peer answer
        × IsNamed name place.own place.peer answer)
        (holders.new ≡ holders.old) reply.old reply.new result }
    ensures rows { (r : ℕ) → is_in r (H.has holders.old) ≡ true
        → H.rows holders.new r ≡ H.rows holders.old r }
    ensures ids { H.ids holders.new ≡ H.ids holders.old }
    ensures still_has { H.has holders.new ≡ H.has holders.old }
    ensures no_less { H.no_less holders.old holders.new }
{
    let Some(name) = single(asked.names) else {
        return Err(unnamed(domain, asked.r0kh_id));
    };
    let answer = holders.pull(asked.r0kh_id, &name, place.own, place.peer);
    reply.looked = Some(answer);
    grant(answer, name, anonce)
}
