//! What a request asks key holders for.

ghost use Rattle.std.specs.Prelude.{◌≡◌, ◌<◌, ◌≤◌, ◌+◌, ◌++◌, IfOk, Some, option_map};
ghost use Rattle.rsn_elements.specs.Fields.{rsne_fields, element_fields};
ghost use Rattle.domain_rules.specs.FastTransition.{single};
ghost use Rattle.domain_rules.specs.TransitionKeys.{asked};
ghost use Rattle.transition_acts.specs.Looks.{pmkids_of, look_named, look_asked, look_acts};

use act_memory::Outbox;
use domain_base::{NoMemory, Node, Octets, array_at};
use key_hierarchy::PullAnswer;
use rsn_elements::{Elements, Rsne};
use run_journal::Act;
use std::alloc::Global;

// The octets of the name of a key.
const NAME_LEN: usize = 16;

/// What key holders are asked for.
#[derive(Drop)]
pub struct Look {
    /// The R0KH-ID of the holder.
    pub r0kh_id: Octets,
    /// PMKR0Name.
    pub name: [u8; 16],
}

// The name, where there is one and no other.
fn single(names: &[u8]) -> Option<[u8; 16]>
    ensures { result ≡ single (Some names.now) }
{
    if names.len() != NAME_LEN {
        return None;
    }
    Some(array_at(names, 0))
}

// The one name in an RSNE.
fn name_in(rsne: Option<Rsne<'_>>) -> Option<[u8; 16]>
    ensures { result ≡ single (pmkids_of (option_map rsne_fields rsne.entry)) }
{
    let Some(rsne) = rsne else { return None };
    match rsne.pmkids {
        Some(pmkids) => single(pmkids.0),
        None => None,
    }
}

// Memory for the R0KH-ID beside that name.
fn named(alloc: Global, r0kh_id: &[u8], name: Option<[u8; 16]>) -> Result<Option<Look>, NoMemory>
    ensures { IfOk result (λ l. l ≡ look_named r0kh_id.now name) }
{
    let Some(name) = name else { return Ok(None) };
    let r0kh_id = Octets(Vec::from_slice(alloc, r0kh_id)?);
    Ok(Some(Look { r0kh_id, name }))
}

impl Look {
    /// What a request with these elements asks for, where it asks for the key of one name.
    pub fn take(alloc: Global, elements: &Elements<'_>) -> Result<Option<Look>, NoMemory>
        ensures { IfOk result (λ l. l ≡ look_asked (asked (element_fields elements.now))) }
    {
        let Some(fte) = elements.fte else {
            return Ok(None);
        };
        match fte.r0kh_id {
            Some(r0kh_id) => named(alloc, r0kh_id, name_in(elements.rsne)),
            None => Ok(None),
        }
    }
}

/// Key holders were asked, for a key of that station.
pub fn add_looked(look: Option<Look>, sta: Node, answer: Option<PullAnswer>, out: &mut Outbox)
    requires { 0 < out.old.spare }
    ensures acts { out.new.acts ≡ out.old.acts ++ look_acts sta look answer }
    ensures spare { out.old.spare ≤ out.new.spare + 1 }
{
    let Some(answer) = answer else { return };
    let Some(look) = look else { return };
    let Look { r0kh_id, name } = look;
    out.add(Act::Looked {
        r0kh_id,
        name,
        sta,
        answer,
    });
}
