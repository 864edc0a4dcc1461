//! The replay counters that messages of one kind were sent with (IEEE Std 802.11-2020, 12.7.2).

ghost use Rattle.std.specs.Prelude.{◌≡◌, ◌≤◌, ◌==◌, max, unwrap_or};
ghost use Rattle.std.specs.List.{list_any};
ghost use Rattle.domain_rules.specs.Asking.{greatest};
ghost use Rattle.authenticator.specs.Counters.{listed, added, count};

/// The replay counters of the messages of one kind, of four at most, the last first.
#[derive(Clone, Copy)]
pub enum Offers {
    /// None was sent.
    Zero,
    /// One was sent.
    One(u64),
    /// Two were sent.
    Two(u64, u64),
    /// Three were sent.
    Three(u64, u64, u64),
    /// Four were sent.
    Four(u64, u64, u64, u64),
}

// The greater of two counters.
fn greater(a: u64, b: u64) -> u64
    ensures { result ≡ max a b }
{
    if a < b { b } else { a }
}

impl Offers {
    /// How many messages were sent.
    pub fn count(self) -> u8
        ensures count { result ≡ count self }
        ensures few { result ≤ 4 }
    {
        match self {
            Offers::Zero => 0,
            Offers::One(_) => 1,
            Offers::Two(_, _) => 2,
            Offers::Three(_, _, _) => 3,
            Offers::Four(_, _, _, _) => 4,
        }
    }

    /// Whether a counter is one of them.
    pub fn is_offered(self, counter: u64) -> bool
        ensures { result ≡ list_any (λ c. c == counter) (listed self) }
    {
        match self {
            Offers::Zero => false,
            Offers::One(a) => a == counter,
            Offers::Two(a, b) => a == counter || b == counter,
            Offers::Three(a, b, c) => a == counter || b == counter || c == counter,
            Offers::Four(a, b, c, d) => {
                a == counter || b == counter || c == counter || d == counter
            }
        }
    }

    /// The greatest of them, or 0 where there is none.
    pub fn greatest(self) -> u64
        ensures { result ≡ unwrap_or (greatest (listed self)) 0 }
    {
        match self {
            Offers::Zero => 0,
            Offers::One(a) => a,
            Offers::Two(a, b) => greater(a, b),
            Offers::Three(a, b, c) => greater(a, greater(b, c)),
            Offers::Four(a, b, c, d) => greater(a, greater(b, greater(c, d))),
        }
    }

    /// With one more. Four stay as they are.
    pub fn with(self, counter: u64) -> Self
        ensures { result ≡ added counter self }
    {
        match self {
            Offers::Zero => Offers::One(counter),
            Offers::One(a) => Offers::Two(counter, a),
            Offers::Two(a, b) => Offers::Three(counter, a, b),
            Offers::Three(a, b, c) => Offers::Four(counter, a, b, c),
            Offers::Four(a, b, c, d) => Offers::Four(a, b, c, d),
        }
    }
}
