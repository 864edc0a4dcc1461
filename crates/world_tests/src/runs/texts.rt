//! How those ends of a run are told in words that no script between streams comes to.

use domain_cli::Status;
use frame_script::{Cause, Form, Mistake};

/// The text of each status.
pub(crate) const TEXTS: &[(Status, &str)] = &[
    (Status::Done, "done"),
    (Status::NoMemory, "out of memory"),
    (Status::DrawFault, "the seed could not be drawn"),
    (
        Status::Script(
            65536,
            0,
            Mistake {
                form: Form::Event,
                word: 1,
                cause: Cause::Plain,
            },
        ),
        "line 65536: outside the grammar (word 1); the form is that of connect, roam with ft-psk, deliver, alter, cut, inject, retry, rekey, send, expire, revoke, leave, secret with domain 2, renew with domain 2 without ft-psk, announce with mfp or round",
    ),
    (Status::Limit(0), "past a limit"),
    (Status::Limit(4), "more than 65535 frames sent"),
];
