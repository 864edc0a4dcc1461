//! How many lines a script has.

ghost use Rattle.std.specs.Prelude.{◌≡◌, ◌≤◌, ◌<◌, ◌^◌, ◌-◌, length};
ghost use Rattle.journal_file.specs.Counting.{IsCounted, with_octet};

/// Octets in lines.
#[derive(Clone, Copy)]
pub struct LineCount {
    /// How many lines they are.
    pub lines: u64,
    /// Whether the last one lacks its line feed.
    pub unended: bool,
}

// One octet more: the first of a line, where the one before ended a line.
fn with_octet(count: LineCount, octet: u8) -> LineCount
    requires { count.lines < 2 ^ 64 - 1 }
    ensures { result ≡ with_octet count octet }
{
    let lines = if count.unended {
        count.lines
    } else {
        count.lines + 1
    };
    LineCount {
        lines,
        unended: octet != b'\n',
    }
}

/// The octets of a script in lines. Octets after the last line feed are a line too.
pub fn counted(script: &[u8]) -> LineCount
    ensures { IsCounted script.now result }
{
    let mut count = LineCount {
        lines: 0,
        unended: false,
    };
    for octet in script {
        count = with_octet(count, *octet);
    }
    count
}
