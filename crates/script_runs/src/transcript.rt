//! A copy of the octets that a reading took from its source.

/// A copy of the octets that were read so far, where one is asked for.
#[derive(Drop)]
pub enum Transcript {
    /// None is asked for.
    Unkept,
    /// All of them.
    Kept(Vec<u8>),
    /// Memory ran out over it, and no more is kept.
    Short,
}

impl Transcript {
    ghost use Rattle.script_runs.specs.Transcripts.{IsCopy};

    /// Takes more octets that were read.
    pub fn add(&mut self, octets: &[u8])
        ensures { IsCopy self.old self.new octets.now }
    {
        match self {
            Transcript::Kept(kept) => match kept.extend_from_slice(octets) {
                Ok(()) => {}
                Err(_) => *self = Transcript::Short,
            },
            Transcript::Unkept | Transcript::Short => {}
        }
    }
}
