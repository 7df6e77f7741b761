// The place of a token: those before it are skipped, without their values.
ghost use Rattle.std.specs.Prelude.{◌≡◌};
ghost use Rattle.tokens.specs.Skips.{digits_end, point_end, power_end, token_end};

use super::bytes::{is_figure, is_word, past_sign, run_end};
use bits::reads::byte_at;

// Behind the digits from a place on.
fn past_digits(body: &[u8], at: usize) -> usize
    ensures { result ≡ digits_end body.now at }
{
    run_end(body, at, |b| b.is_ascii_digit())
}

// Behind a point and its digits, if a point stands there.
fn past_point(body: &[u8], at: usize) -> usize
    ensures { result ≡ point_end body.now at }
{
    if byte_at(body, at) == b'.' {
        past_digits(body, at + 1)
    } else {
        at
    }
}

// Behind an exponent, if an E stands there.
fn past_power(body: &[u8], at: usize) -> usize
    ensures { result ≡ power_end body.now at }
{
    if byte_at(body, at) == b'E' {
        past_digits(body, past_sign(body, at + 1))
    } else {
        at
    }
}

// Behind the token that begins at a place.
pub fn past_token(body: &[u8], at: usize) -> usize
    ensures { result ≡ token_end body.now at }
{
    let b = byte_at(body, at);
    if b.is_ascii_uppercase() {
        run_end(body, at, |&&b| is_word(b))
    } else if is_figure(b) {
        let whole = past_digits(body, at);
        let digits = past_point(body, whole);
        past_power(body, digits)
    } else if at < body.len() {
        at + 1
    } else {
        at
    }
}
