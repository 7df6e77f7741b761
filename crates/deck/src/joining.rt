// The parts of a statement's cards, one behind the other.
ghost use Rattle.std.specs.Prelude.{◌≡◌, ◌∷◌, ◌+◌, ◌<◌, ◌^◌, length};
ghost use Rattle.std.proofs.lemmas.List.Edits.{sets};
ghost use Rattle.deck.specs.Joined.{line_part};
ghost use Rattle.deck.specs.Codes.{part_behind};

use super::lines::part_of;
use bits::put_bytes;

// Writes a line's part from a place on; the place behind it.
fn put_part(line: &[u8], out: &mut [u8], at: usize) -> usize
    requires { at + length (line_part line.now) < 2 ^ 64 }
    ensures value { result ≡ at + length (line_part line.now) }
    ensures written { out.new ≡ sets out.old at (line_part line.now) }
{
    let part = part_of(line);
    put_bytes(&mut *out, at, part);
    at + part.len()
}

// Writes a space and a line's part from a place on; the place behind them.
fn put_spaced(line: &[u8], out: &mut [u8], at: usize) -> usize
    requires { at + 1 + length (line_part line.now) < 2 ^ 64 }
    ensures value { result ≡ at + 1 + length (line_part line.now) }
    ensures written { out.new ≡ sets out.old at (32 ∷ line_part line.now) }
{
    put_bytes(&mut *out, at, b" ");
    put_part(line, out, at + 1)
}

// Writes a card's part from a place on, behind a space or not; the place behind it.
pub fn put_card(line: &[u8], out: &mut [u8], at: usize, apart: bool) -> usize
    requires { at + length (part_behind apart line.now) < 2 ^ 64 }
    ensures value { result ≡ at + length (part_behind apart line.now) }
    ensures written { out.new ≡ sets out.old at (part_behind apart line.now) }
{
    if apart {
        return put_spaced(line, out, at);
    }
    put_part(line, out, at)
}
