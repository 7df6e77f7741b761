// A statement that starts at a line.
ghost use Rattle.std.specs.Prelude.{◌≡◌, [], ◌+◌, ◌≤◌, Some, drop};
ghost use Rattle.deck.specs.Lines.{lines_of};
ghost use Rattle.deck.specs.Reading.{inside, reading};
ghost use Rattle.deck.specs.Next.{found_at};
ghost use Rattle.deck.specs.Ahead.{LineAt};

use super::lines::{Lines, is_comment, is_dotted};
use crate::{Cursor, Statement};

// The statement that starts at a place with this line, of which the number is known.
pub fn run(text: &[u8], start: usize, first: usize, line: &[u8]) -> Statement
    requires { LineAt text.now start line.now × (first ≤ start + 1) }
    ensures { Some result ≡ found_at start (reading (inside first []) first (lines_of (drop start text.now))) }
{
    let mut ahead = Lines {
        text,
        at: start + line.len() + 1,
    };
    let mut line = line;
    let mut lines: usize = 0;
    let mut cards: usize = 0;
    let mut long = false;
    let closed = loop {
        let comment = is_comment(line);
        long = long | (!comment & (limits::CARD_BYTES < line.len()));
        cards += usize::from(!comment);
        lines += 1;
        let more = comment | is_dotted(line);
        if !more {
            break true;
        }
        let Some(next) = ahead.next() else {
            break false;
        };
        line = next;
    };
    Statement {
        first,
        start,
        lines,
        cards,
        closed,
        long,
        next: Cursor {
            at: ahead.at,
            line: first + lines,
        },
    }
}
