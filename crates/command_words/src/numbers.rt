//! Numbers in decimal digits.

ghost use Rattle.std.specs.Prelude.{◌≡◌};
ghost use Rattle.command_words.specs.Words.{digits_number, port_number, storm_number};

// The number that one to ten decimal digits write.
#[tactic(auto, unfolding(crate::specs::Words::digits_number))]
fn digits_number(text: &[u8]) -> Option<u64>
    ensures { result ≡ digits_number text.now }
{
    if text.is_empty() || 10 < text.len() {
        return None;
    }
    let mut number = 0;
    for digit in text {
        if !digit.is_ascii_digit() {
            return None;
        }
        number = number * 10 + u64::from(*digit - b'0');
    }
    Some(number)
}

/// The port that the text gives.
pub fn port_number(text: &[u8]) -> Option<u16>
    ensures { result ≡ port_number text.now }
{
    let Some(number) = digits_number(text) else {
        return None;
    };
    if (1024..=64000).contains(&number) {
        Some(number as u16)
    } else {
        None
    }
}

/// The number of a storm that the text gives.
pub fn storm_number(text: &[u8]) -> Option<u32>
    ensures { result ≡ storm_number text.now }
{
    let Some(number) = digits_number(text) else {
        return None;
    };
    if number < 1 << 32 {
        Some(number as u32)
    } else {
        None
    }
}
