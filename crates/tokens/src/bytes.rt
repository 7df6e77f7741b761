// Which bytes are what, and the runs of bytes of one kind.
ghost use Rattle.std.specs.Prelude.{◌≡◌, ℕ, Bool, ◌||◌, ◌+◌, length, drop};
ghost use Rattle.laws.specs.Runs.{front_run};
ghost use Rattle.tokens.specs.Bytes.{is_digit, is_point, is_word, is_mark, spaces_at};
ghost use Rattle.tokens.specs.Closure.{IsTest};
ghost use Rattle.tokens.specs.Number.{sign_end};

use bits::reads::byte_at;

// What a name goes on with: A to Z and 0 to 9.
pub fn is_word(b: u8) -> bool
    ensures { result ≡ is_word b }
{
    matches!(b, b'0'..=b'9' | b'A'..=b'Z')
}

// What a number begins with.
pub fn is_figure(b: u8) -> bool
    ensures { result ≡ (is_digit b || is_point b) }
{
    b.is_ascii_digit() || b == b'.'
}

// What may not stand directly after a number.
pub fn is_tail(b: u8) -> bool
    ensures { result ≡ (is_word b || is_point b) }
{
    is_word(b) || b == b'.'
}

// ( ) * + , - which stand side by side, and / =.
pub fn is_mark(b: u8) -> bool
    ensures { result ≡ is_mark b }
{
    matches!(b, b'('..=b'-') || matches!(b, b'/' | b'=')
}

// Behind the bytes from a place on that pass a test, up to the first that does not.
pub fn run_end<F: FnMut(&&u8) -> bool>(body: &[u8], from: usize, passes: F) -> usize
    ghost test: { ℕ → Bool }
    requires answers { IsTest F.FnMut passes test }
    requires callable { (f : F) (b : _) → F.pre f b }
    ensures { result ≡ from + length (front_run test (drop from body.now)) }
{
    let Some(rest) = body.get(from..) else {
        return from;
    };
    from + rest.iter().take_while(passes).count()
}

// The place behind the spaces from a place on. Most tokens follow one another directly, so the first byte is looked at
// before the run.
pub fn past_spaces(body: &[u8], from: usize) -> usize
    ensures { result ≡ from + length (spaces_at body.now from) }
{
    if byte_at(body, from) != b' ' {
        return from;
    }
    run_end(body, from + 1, |&&b| b == b' ')
}

// Behind a sign, if one stands there.
pub fn past_sign(body: &[u8], at: usize) -> usize
    ensures { result ≡ sign_end body.now at }
{
    if matches!(byte_at(body, at), b'+' | b'-') {
        at + 1
    } else {
        at
    }
}
