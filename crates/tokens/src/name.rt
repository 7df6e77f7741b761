// Names: how many letters and digits they have, and the key of these.
ghost use Rattle.std.specs.Prelude.{◌≡◌, ◌≤◌, ◌<◌, length, take};
ghost use Rattle.limits.specs.Limits.{name_bytes};
ghost use Rattle.bits.specs.Low.{low_word};
ghost use Rattle.tokens.specs.Token.{name_at};
ghost use Rattle.tokens.specs.Held.{three_of};
ghost use Rattle.tokens.specs.Names.{name_count};

use super::bytes::is_word;
use crate::{Cut, Token, bad};
use bits::reads::byte_at;
use faults::Fault;

// How many letters and digits stand from a place on, counted up to one more than a name may have.
fn name_bytes(body: &[u8], at: usize) -> usize
    requires { at ≤ length body.now }
    ensures { result ≡ name_count body.now at }
{
    let most = limits::NAME_BYTES + 1;
    body[at..]
        .iter()
        .take(most)
        .take_while(|&&b| is_word(b))
        .count()
}

// The name at a place; one of too many letters and digits is bad.
pub fn read_name(body: &[u8], at: usize) -> Cut
    requires { at ≤ length body.now }
    ensures { result ≡ name_at body.now at }
{
    let n = name_bytes(body, at);
    if limits::NAME_BYTES < n {
        return bad(Fault::LongName, at);
    }
    Cut {
        token: Token::Name(at, n),
        at,
        next: at + n,
    }
}

// The number of three bytes from a place on, 0 for those past the end.
fn three_at(name: &[u8], i: usize) -> u64
    requires { i ≤ name_bytes }
    ensures value { result ≡ three_of name.now i }
    ensures small { result < 16777216 }
{
    let a = u64::from(byte_at(name, i));
    let b = u64::from(byte_at(name, i + 1));
    let c = u64::from(byte_at(name, i + 2));
    a + 256 * b + 65536 * c
}

// The key of a name: the number that its first NAME_BYTES bytes are, two times three, or as many as there are. It is
// made without a loop.
pub fn key_of(name: &[u8]) -> u64
    ensures { result ≡ low_word (take name_bytes name.now) }
{
    three_at(name, 0) + 16777216 * three_at(name, 3)
}
