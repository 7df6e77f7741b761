// Numbers: digits with at most one point, an exponent, and the value of both.
ghost use Rattle.std.specs.Prelude.{◌≡◌, ◌+◌, ◌*◌, ◌-◌, ◌≤◌, min, get_or};
ghost use Rattle.limits.specs.Limits.{most_tens};
ghost use Rattle.tokens.specs.Number.{ten_to, ranged_number, digits_from, exponent_from};
ghost use Rattle.tokens.specs.Token.{number_cut};
ghost use Rattle.tokens.specs.Capped.{cap, decimal_at, capped, power_of};

use super::bytes::{is_tail, past_sign};
use crate::{Cut, Token, bad};
use bits::reads::byte_at;
use faults::Fault;

// A number read from digits, the place behind them, and the byte there.
#[derive(Clone, Copy)]
struct Decimal {
    value: u64,
    end: usize,
    behind: u8,
}

// One more digit behind a number; what is too large stays at one more than the most.
fn with_digit(v: u64, b: u8) -> u64
    requires { v ≤ cap }
    ensures { result ≡ min cap (v * 10 + (b - 48)) }
{
    let digit = b.saturating_sub(b'0');
    (v * 10 + u64::from(digit)).min(limits::MOST_DIGITS + 1)
}

// The digits from a place on, read behind a number: it, the place and the byte in one pass.
fn digits(body: &[u8], from: usize, before: u64) -> Decimal
    requires { before ≤ cap }
    ensures { result ≡ decimal_at body.now from before }
{
    let mut value = before;
    let mut end = from;
    let mut behind = byte_at(body, end);
    while behind.is_ascii_digit() {
        value = with_digit(value, behind);
        end += 1;
        behind = byte_at(body, end);
    }
    Decimal { value, end, behind }
}

// What stands before an exponent: its digits as a number, how many stand after the point, how many there are, the place
// behind and its byte.
#[derive(Clone, Copy)]
struct Mantissa {
    value: u64,
    after: usize,
    count: usize,
    end: usize,
    behind: u8,
}

// The digits of a number, with at most one point among them.
fn read_mantissa(body: &[u8], at: usize) -> Mantissa
    ensures { result ≡ capped body.now (digits_from body.now at) }
{
    let whole = digits(body, at, 0);
    if whole.behind != b'.' {
        return Mantissa {
            value: whole.value,
            after: 0,
            count: whole.end - at,
            end: whole.end,
            behind: whole.behind,
        };
    }
    let from = whole.end + 1;
    let all = digits(body, from, whole.value);
    Mantissa {
        value: all.value,
        after: all.end - from,
        count: all.end - (at + 1),
        end: all.end,
        behind: all.behind,
    }
}

// An exponent, the place behind it and its byte. With a minus the exponent stands in down, else in up.
#[derive(Clone, Copy)]
struct Power {
    up: usize,
    down: usize,
    end: usize,
    behind: u8,
}

// The exponent behind a number's digits, where the first byte is known: 0 where there is no E, none where an E begins
// none.
fn read_exponent(body: &[u8], at: usize, first: u8) -> Option<Power>
    requires { first ≡ get_or body.now at 0 }
    ensures { result ≡ power_of body.now (exponent_from body.now at) }
{
    if first != b'E' {
        return Some(Power {
            up: 0,
            down: 0,
            end: at,
            behind: first,
        });
    }
    let from = past_sign(body, at + 1);
    let d = digits(body, from, 0);
    let n = d.end - from;
    if n == 0 || limits::EXPONENT_DIGITS < n {
        return None;
    }
    let value = d.value as usize;
    let (up, down) = if byte_at(body, at + 1) == b'-' {
        (0, value)
    } else {
        (value, 0)
    };
    Some(Power {
        up,
        down,
        end: d.end,
        behind: d.behind,
    })
}

// 10 to the k, by k multiplications by ten: an f64 holds each product exactly.
fn ten(k: usize) -> f64
    requires { k ≤ most_tens }
    ensures { result ≡ ten_to k }
{
    let mut x = 1.0;
    for _i in 0..k {
        x = x * 10.0;
    }
    x
}

// m times 10 to the up less down, or bad where one of them is out of range.
fn scaled(m: u64, up: usize, down: usize) -> Token
    ensures { result ≡ ranged_number m up down }
{
    let k = up.abs_diff(down);
    if limits::MOST_DIGITS < m || limits::MOST_TENS < k {
        return Token::Bad(Fault::OutOfRange);
    }
    let x = ten(k);
    if down <= up {
        Token::Number(m as f64 * x)
    } else {
        Token::Number(m as f64 / x)
    }
}

// The number at a place.
pub fn read_number(body: &[u8], at: usize) -> Cut
    ensures { result ≡ number_cut body.now at }
{
    let m = read_mantissa(body, at);
    if m.count == 0 {
        return bad(Fault::Malformed, at);
    }
    let Some(power) = read_exponent(body, m.end, m.behind) else {
        return bad(Fault::Malformed, at);
    };
    if is_tail(power.behind) {
        return bad(Fault::Malformed, at);
    }
    Cut {
        token: scaled(m.value, power.up, power.down + m.after),
        at,
        next: power.end,
    }
}
