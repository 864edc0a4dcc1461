//! A PMK-R1 in its key wrap.

ghost use Rattle.std.specs.Prelude.{◌≡◌, MatchOption};
ghost use Rattle.key_wrap.specs.KeyWrap.{Wraps};
ghost use Rattle.holder_link.specs.Datagrams.{IsSaid};
ghost use Rattle.holder_link.specs.Says.{Says, SaysNothing, WrapsNothing};
ghost use Rattle.key_holders.specs.Pulls.{IsNamed};

use crate::fields::Said;
use domain_base::Mac;
use key_hierarchy::{PmkR1, PullAnswer, r1_name};
use key_wrap::{unwrap, wrap};

// The key, wrapped.
fn wrapped(kek: &[u8; 16], r1: &PmkR1) -> [u8; 40]
    ensures { Wraps kek.now r1.now.key result }
{
    let mut out = [0; 40];
    wrap(kek, &r1.key, &mut out);
    out
}

/// What an Answer says.
pub(crate) fn said_of(kek: &[u8; 16], answer: &PullAnswer) -> Said
    ensures says { Says kek.now answer.now result }
    ensures said { IsSaid result }
{
    match answer {
        PullAnswer::Found(r1) => Said::Found(wrapped(kek, r1)),
        PullAnswer::NoHolder => Said::NoHolder,
        PullAnswer::Absent => Said::Absent,
    }
}

// The key that is wrapped so.
fn unwrapped(kek: &[u8; 16], wrapped: &[u8; 40]) -> Option<[u8; 32]>
    ensures { MatchOption result (WrapsNothing kek.now wrapped.now)
        (λ key. Wraps kek.now key wrapped.now) }
{
    let mut key = [0; 32];
    match unwrap(kek, wrapped, &mut key) {
        Ok(_) => Some(key),
        Err(_) => None,
    }
}

/// The answer that an Answer holds for a PMKR0Name, an R1 key holder and a station, where what is
/// wrapped has a plain text.
pub(crate) fn heard(
    kek: &[u8; 16],
    said: &Said,
    name: &[u8; 16],
    r1kh: Mac,
    sta: Mac,
) -> Option<PullAnswer>
    ensures { MatchOption result (SaysNothing kek.now said.now)
        (λ a. Says kek.now a said.now × IsNamed name.now r1kh sta a) }
{
    match said {
        Said::Found(wrapped) => {
            let key = unwrapped(kek, wrapped)?;
            let name = r1_name(name, r1kh, sta);
            Some(PullAnswer::Found(PmkR1 { key, name }))
        }
        Said::NoHolder => Some(PullAnswer::NoHolder),
        Said::Absent => Some(PullAnswer::Absent),
    }
}
