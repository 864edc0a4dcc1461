//! The event that a line asks for.

ghost use Rattle.std.specs.Prelude.{◌≡◌, ◌++◌, IfOk, IfSome, codes};
ghost use Rattle.std.specs.Int.{w64, to_be_bytes};
ghost use Rattle.mac_prf.specs.Prf.{kdf};
ghost use Rattle.link_lines.specs.Asked.{HasSizes, IsAskable, event_of, nonce_of, question_of};
ghost use Rattle.link_lines.specs.Asked.{revoked_of, row_of};
ghost use Rattle.link_lines.specs.Drafts.{IsWholeHeader};

use crate::draft::LinkHeader;
use crate::said::LinkSaid;
use domain_base::{Mac, NoMemory, Octets, array_at, put};
use key_holders::HolderRow;
use link_steps::{LinkEvent, Question};
use mac_prf::kdf;
use std::alloc::Global;

/// The row of a station with the pre-shared key of the header. Takes no memory.
pub fn row_of(header: &LinkHeader, sta: Mac) -> HolderRow
    requires { IsWholeHeader header.now }
    ensures { result ≡ row_of header.now sta }
{
    HolderRow::derive(
        &header.psk,
        header.ssid.as_slice(),
        header.mdid,
        header.r0kh_id.as_slice(),
        sta,
    )
}

/// What is asked of a station, for an R1 key holder.
pub fn question_of(
    alloc: Global,
    header: &LinkHeader,
    sta: Mac,
    r1kh: Mac,
) -> Result<Question, NoMemory>
    requires { IsWholeHeader header.now }
    ensures question { IfOk result (λ q. q ≡ question_of header.now sta r1kh) }
    ensures sizes { IfOk result IsAskable }
{
    let row = row_of(header, sta);
    let r0kh_id = Octets(Vec::from_slice(alloc, header.r0kh_id.as_slice())?);
    Ok(Question {
        r0kh_id,
        name: row.name,
        r1kh,
        sta,
    })
}

// The octets that the nonce of question n is taken from.
fn value_of(seed: &[u8; 32], r1kh: Mac, n: u64) -> [u8; 32]
    ensures { result ≡ kdf seed.now (codes "Init Counter") (r1kh.0 ++ to_be_bytes w64 n) 32 }
{
    let mut context = [0; 14];
    let at = put(&mut context, 0, &r1kh.0);
    put(&mut context, at, &n.to_be_bytes());
    let mut value = [0; 32];
    kdf(seed, b"Init Counter", &context, &mut value);
    value
}

/// The nonce of question n, counted from 0, for an R1 key holder.
#[tactic(auto, unfolding(crate::specs::Asked::nonce_of))]
pub fn nonce_of(seed: &[u8; 32], r1kh: Mac, n: u64) -> [u8; 16]
    ensures { result ≡ nonce_of seed.now r1kh n }
{
    let value = value_of(seed, r1kh, n);
    array_at(&value, 0)
}

/// What a line asks for, where so many questions were asked. Memory is taken for a question alone.
pub fn event_of(
    alloc: Global,
    header: &LinkHeader,
    asked: u64,
    said: LinkSaid,
) -> Result<Option<LinkEvent>, NoMemory>
    requires { IsWholeHeader header.now }
    ensures event { IfOk result (λ e. e ≡ event_of header.now asked said) }
    ensures sizes { IfOk result (λ e. IfSome e HasSizes) }
{
    match said {
        LinkSaid::Row(sta) => Ok(Some(LinkEvent::Row(row_of(header, sta)))),
        LinkSaid::Revoke(sta) => Ok(Some(LinkEvent::Revoke(row_of(header, sta).name))),
        LinkSaid::Ask(sta, r1kh) => match question_of(alloc, header, sta, r1kh) {
            Ok(question) => {
                let nonce = nonce_of(&header.seed, r1kh, asked);
                Ok(Some(LinkEvent::Ask(question, nonce)))
            }
            Err(error) => Err(error),
        },
        LinkSaid::Forget(n) => Ok(Some(LinkEvent::Forget(n))),
        LinkSaid::Nothing | LinkSaid::Draw | LinkSaid::Begin | LinkSaid::Turn => Ok(None),
    }
}

/// The station of a revocation, which the report names.
pub fn revoked_of(said: LinkSaid) -> Option<Mac>
    ensures { result ≡ revoked_of said }
{
    match said {
        LinkSaid::Revoke(sta) => Some(sta),
        _ => None,
    }
}
