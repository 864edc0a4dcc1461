//! A sink in memory, one of whose calls takes nothing.

ghost use Rattle.std.specs.Prelude.{Some};

use domain_base::{Failed, MemSink, Sink};

/// A sink in memory. Its call of one number, from 0, takes none of its octets, and this counts as a
/// fault.
#[derive(Drop)]
pub(crate) struct StallingSink {
    inner: MemSink,
    // the call that takes nothing
    stalls: u64,
    made: u64,
    faults: u64,
}

impl StallingSink {
    /// Over a sink, before its first call.
    pub(crate) fn new(inner: MemSink, stalls: u64) -> Self {
        StallingSink {
            inner,
            stalls,
            made: 0,
            faults: 0,
        }
    }

    /// What has gone out, in order.
    pub(crate) fn written(&self) -> &[u8] {
        self.inner.written()
    }
}

impl Sink for StallingSink {
    ghost out = { λ s. Some s.inner.out };

    ghost faults = { λ s. s.faults };

    fn write(&mut self, piece: &[u8]) -> Result<usize, Failed> {
        let number = self.made;
        self.made = self.made.saturating_add(1);
        let taken = if number == self.stalls {
            Ok(0)
        } else {
            self.inner.write(piece)
        };
        match taken {
            Ok(count) => {
                if count == 0 && !piece.is_empty() {
                    self.faults = self.faults.saturating_add(1);
                }
                Ok(count)
            }
            Err(_) => {
                self.faults = self.faults.saturating_add(1);
                Err(Failed)
            }
        }
    }
}
