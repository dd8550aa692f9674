// The lines of a text, one after the other.
ghost use Rattle.std.specs.Prelude.{◌≡◌, ◌+◌, ◌-◌, ◌<◌, ◌≤◌, length, drop};
ghost use Rattle.text_rows.specs.LineAt.{LineAt, line_end};

// A position in a text: the byte, and the line counted from 1.
#[derive(Clone, Copy, Debug, PartialEq, Eq)]
pub struct Cursor {
    pub at: usize,
    pub line: usize,
}

// A line: the byte past its last, and where the next line begins.
#[derive(Clone, Copy, Debug, PartialEq, Eq)]
pub struct Line {
    pub end: usize,
    pub next: Cursor,
}

// The end of the line from `at` whose LF is at `feed`: a CR just before the LF is not part of it.
fn end_before(text: &[u8], at: usize, feed: usize) -> usize
    requires { (at ≤ feed) × (feed < length text.now) }
    ensures { result ≡ at + line_end (drop at text.now) (feed - at) }
{
    if at < feed && text[feed - 1] == b'\r' {
        return feed - 1;
    }
    feed
}

// The line at a cursor. Without a LF it goes to the end of the text.
pub fn line_at(text: &[u8], from: Cursor) -> Line
    requires { (from.at < length text.now) × (from.line ≤ from.at + 1) }
    ensures { LineAt text.now from result }
{
    let line = from.line + 1;
    let Some(length) = text[from.at..].iter().position(|byte| *byte == b'\n') else {
        let end = text.len();
        return Line {
            end,
            next: Cursor { at: end, line },
        };
    };
    let feed = from.at + length;
    Line {
        end: end_before(text, from.at, feed),
        next: Cursor { at: feed + 1, line },
    }
}
