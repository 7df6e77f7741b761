// Where the bytes of a statement stand: lines below its first, and columns.
ghost use Rattle.std.specs.Prelude.{◌≡◌};
ghost use Rattle.deck.specs.Next.{lines_at};
ghost use Rattle.deck.specs.Spots.{first_byte, byte_spot, last_spot};

use super::lines::{is_comment, lines_at, part_of};
use crate::Spot;

// Byte n of the joined text of the statement of so many lines from a start on.
pub fn byte_spot(text: &[u8], start: usize, lines: usize, n: usize) -> Spot
    ensures { result ≡ byte_spot 0 (lines_at text.now start lines) n }
{
    let mut left = n;
    for (down, line) in lines_at(text, start, lines).enumerate() {
        if is_comment(line) {
            continue;
        }
        let part = part_of(line).len();
        if left < part {
            return Spot {
                down,
                column: left + 1,
            };
        }
        left = (left - part).saturating_sub(1);
    }
    Spot { down: 0, column: 1 }
}

// The last byte of the last card of the statement of so many lines from a start on.
pub fn last_spot(text: &[u8], start: usize, lines: usize) -> Spot
    ensures { result ≡ last_spot first_byte 0 (lines_at text.now start lines) }
{
    let mut last = Spot { down: 0, column: 1 };
    for (down, line) in lines_at(text, start, lines).enumerate() {
        if !is_comment(line) {
            last = Spot {
                down,
                column: line.len().max(1),
            };
        }
    }
    last
}
