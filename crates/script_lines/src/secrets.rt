//! The line of a changed key.

ghost use Rattle.std.specs.Prelude.{ℕ, List, IfOk, IsTrue};
ghost use Rattle.script_lines.specs.Headers.{CanHappen};
ghost use Rattle.script_lines.specs.Script.{is_second, secret_line};
ghost use Rattle.script_lines.specs.Sentences.{Tells, is_few};

use crate::header::own_psk;
use crate::listed::named_sta;
use crate::refusal::Refusal;
use run_journal::{Domain, Event};
use script_words::{peer_name, split_word};

/// The key of a station, or of all, is changed. A key by a passphrase is derived once.
#[tactic(auto, unfolding(crate::specs::Script::secret_line))]
pub(crate) fn secret_line(domain: &Domain, text: &[u8]) -> Result<Event, Refusal>
    requires few { IsTrue (is_few domain.now) }
    requires version { IsTrue (is_second domain.now.extras.version) }
    ensures can { (sizes : List ℕ) → IfOk result (CanHappen domain.now sizes) }
    ensures says { Tells result (secret_line domain.now text.now) }
{
    let Some((word, rest)) = split_word(text) else {
        return Err(Refusal::Arguments);
    };
    let Some(name) = peer_name(word) else {
        return Err(Refusal::Arguments);
    };
    let psk = own_psk(domain.ssid.as_slice(), rest)?;
    let Some(sta) = named_sta(domain, name) else {
        return Err(Refusal::Node);
    };
    Ok(Event::Secret { sta, psk })
}
