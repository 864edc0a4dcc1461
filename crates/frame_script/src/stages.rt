//! How far a script is, where its header has all that it has to have.

ghost use Rattle.std.specs.Prelude.{◌≡◌};
ghost use Rattle.frame_script.specs.Script.{header_stage, stage_of};

use run_journal::{Domain, Extras};
use script_words::Stage;

// How far a header is that has all that it has to have.
fn header_stage(extras: Extras) -> Stage
    ensures { result ≡ header_stage extras }
{
    if extras.mfp {
        Stage::Unlisted
    } else if extras.renew_at.is_some() {
        Stage::Renewing
    } else {
        Stage::Bare
    }
}

/// How far a script is that told this network and asked for so many rounds, outside rounds.
pub(crate) fn stage_of(domain: &Domain, rounds: u64) -> Stage
    ensures { result ≡ stage_of domain.now rounds }
{
    if rounds == 0 {
        if domain.stas.as_slice().is_empty() {
            if domain.aps.0.is_empty() {
                header_stage(domain.extras)
            } else {
                Stage::Unlisted
            }
        } else {
            Stage::Listed
        }
    } else {
        Stage::Begun
    }
}
