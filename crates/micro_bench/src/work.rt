//! What is to be pulled, and what came of it.

ghost use Rattle.std.specs.Prelude.{◌≡◌, ◌+◌, ◌*◌, ◌≤◌};

/// Pulls of some threads at access points with some rows.
#[derive(Clone, Copy)]
pub struct Work {
    /// 1, 2 or 4.
    pub threads: u8,
    /// The rows of each access point.
    pub rows: u8,
    /// The pulls of each thread.
    pub pulls: u32,
    /// Which names are asked for, and how.
    pub asks: Asks,
}

/// Which names are asked for, and how.
#[derive(Clone, Copy)]
pub enum Asks {
    /// Names that are held.
    Held,
    /// Names that are held, by a cache of 64 keys for each thread.
    Cached,
    /// Names that are not held.
    Absent,
}

/// The threads and the rows that are tried where no words name them.
pub const TABLE: [(u8, u8); 6] = [(1, 4), (2, 4), (4, 4), (1, 64), (2, 64), (4, 64)];

// What a word asks for, where it is one of the three.
fn asks_of(word: &str) -> Option<Asks> {
    match word {
        "held" => Some(Asks::Held),
        "cached" => Some(Asks::Cached),
        "absent" => Some(Asks::Absent),
        _ => None,
    }
}

impl Work {
    /// The threads, the rows and the pulls, and whether names are asked for that are `held`, as
    /// where no word says it, that are held and with a cache (`cached`), or that are `absent`.
    pub fn of_words(words: &[String]) -> Option<Work> {
        if words.len() < 3 || words.len() > 4 {
            return None;
        }
        let threads = words[0].parse::<u8>().ok()?;
        let rows = words[1].parse::<u8>().ok()?;
        let pulls = words[2].parse::<u32>().ok()?;
        if !matches!(threads, 1 | 2 | 4) || !matches!(rows, 1..=64) {
            return None;
        }
        let asks = if words.len() == 3 {
            Asks::Held
        } else {
            asks_of(words[3].as_str())?
        };
        Some(Work {
            threads,
            rows,
            pulls,
            asks,
        })
    }

    /// How many pulls all threads do together.
    pub fn asked(&self) -> u64 {
        let threads = match self.threads {
            1 => 1,
            2 => 2,
            _ => 4,
        };
        threads * u64::from(self.pulls)
    }
}

/// What was found.
#[derive(Clone, Copy)]
pub struct Pulled {
    /// How many keys.
    pub found: u64,
    /// The sum of an octet of each, so that each key has to be made.
    pub sum: u8,
}

impl Pulled {
    /// What both found.
    pub fn with(self, other: Pulled) -> Pulled
        requires { self.found + other.found ≤ 4 * 4294967295 }
        ensures { result.found ≡ self.found + other.found }
    {
        Pulled {
            found: self.found + other.found,
            sum: self.sum.wrapping_add(other.sum),
        }
    }
}
