//! A law of runs. The function does nothing; its contract is proved.

ghost use Rattle.domain_cli.specs.Safety.{RunsAreSafe};

use journal_safety::{
    hands_up_once, installs_once, joins, keys_never_go_back, renews_safely, uses_once,
};

/// Where what is drawn is fresh, derived keys do not collide, and every MIC that verified was made
/// by a holder of its key, a run of rounds in a network is safe, of whatever suite the network is;
/// no group key that a station takes from an access point goes back in the order of drawing; and
/// where a pairwise key is renewed, its nonces are others, and the former key is used no longer.
/// Each announcement that is handed up was sent by its access point, and is handed up once.
pub fn runs_are_safe()
    ensures { RunsAreSafe }
{
    joins();
    installs_once();
    uses_once();
    hands_up_once();
    keys_never_go_back();
    renews_safely();
}
