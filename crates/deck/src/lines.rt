// Lines: where they end, what a line is by itself, and the lines of a text one by one.
ghost use Rattle.std.specs.Prelude.{◌≡◌, ◌+◌, ◌-◌, ◌<◌, ◌≤◌, length, take, drop, fold, position};
ghost use Rattle.std.specs.Prelude.{true, false, ◌==◌, ◌||◌, MatchOption};
ghost use Rattle.std.specs.Iterator.{item_count};
ghost use Rattle.deck.specs.Lines.{trimmed, dotted, starred, passed};
ghost use Rattle.deck.specs.Next.{width, lines_at, SameEnd};
ghost use Rattle.deck.specs.Joined.{line_part};
ghost use Rattle.deck.specs.Ahead.{lines_ahead, Advances, Walks};

use std::iter::Take;

// How many bytes are searched at once for a byte 10, at first and then.
const STRIDE: usize = 16;

const PACE: usize = 8;

// Whether a part has a byte 10. Each byte is looked at, so that many are at once.
fn has_end(part: &[u8]) -> bool
    ensures { result ≡ fold (λ found b. found || b == 10) false part.now }
{
    part.iter().fold(false, |found, &b| found | (b == b'\n'))
}

// A place before which no byte 10 stands, from a place on: so many bytes are passed at once.
fn pass(text: &[u8], at: usize, stride: usize) -> usize
    requires { (at ≤ length text.now) × (0 < stride) }
    ensures { SameEnd text.now at result }
{
    let mut i = at;
    while stride <= text.len() - i {
        let e = i + stride;
        if has_end(&text[i..e]) {
            return i;
        }
        i = e;
    }
    i
}

// The place of the first byte 10, if there is one.
fn first_end(text: &[u8]) -> Option<usize>
    ensures { result ≡ position (λ b. b == 10) text.now }
{
    text.iter().position(|&b| b == b'\n')
}

// Where the line that starts at a place ends: the place of its byte 10, or the text's length.
fn line_end(text: &[u8], at: usize) -> usize
    requires { at ≤ length text.now }
    ensures value { result ≡ at + width (drop at text.now) }
    ensures within { (at ≤ result) × (result ≤ length text.now) }
{
    let far = pass(text, at, STRIDE);
    let near = pass(text, far, PACE);
    match first_end(&text[near..]) {
        Some(i) => near + i,
        None => text.len(),
    }
}

// A line without its trailing spaces.
fn trimmed(line: &[u8]) -> &[u8]
    ensures { result.now ≡ take (trimmed line.now) line.now }
{
    let mut kept = line;
    while let [front @ .., b' '] = kept {
        kept = front;
    }
    kept
}

// A line in front of its closing dots, if it has such.
fn undotted(line: &[u8]) -> Option<&[u8]>
    ensures { MatchOption result (dotted line.now ≡ false)
        (λ front. (dotted line.now ≡ true) × (front.now ≡ take (trimmed line.now - 3) line.now)) }
{
    trimmed(line).strip_suffix(b"...")
}

// A statement line that continues on the next line.
pub fn is_dotted(line: &[u8]) -> bool
    ensures { result ≡ dotted line.now }
{
    undotted(line).is_some()
}

// A line's part: without the closing dots, and the spaces behind them.
pub fn part_of(line: &[u8]) -> &[u8]
    ensures { result.now ≡ line_part line.now }
{
    undotted(line).unwrap_or(line)
}

// A comment.
pub fn is_comment(line: &[u8]) -> bool
    ensures { result ≡ starred line.now }
{
    matches!(line, [b'*', ..])
}

// A comment or a blank.
pub fn is_passed(line: &[u8]) -> bool
    ensures { result ≡ passed line.now }
{
    is_comment(line) || trimmed(line).is_empty()
}

// The lines of a text from a place on.
#[derive(Drop)]
pub struct Lines<'a> {
    pub text: &'a [u8],
    pub at: usize,
}

impl<'a> Iterator for Lines<'a> {
    type Item = &'a [u8];

    ghost next_gives = { Advances };

    ghost remaining = { item_count lines_ahead };

    fn next(&mut self) -> Option<&'a [u8]> {
        let start = self.at;
        if self.text.len() <= start {
            return None;
        }
        let end = line_end(self.text, start);
        self.at = end + 1;
        Some(&self.text[start..end])
    }
}

// So many lines of a text from a place on, or as many as there are.
pub fn lines_at(text: &[u8], start: usize, lines: usize) -> Take<Lines<'_>>
    ensures { Walks result (lines_at text.now start lines) }
{
    Lines { text, at: start }.take(lines)
}
