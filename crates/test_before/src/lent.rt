// What is lent: a mixture at the first 256 places, and a mark at those behind them.
ghost use Rattle.std.specs.Prelude.{◌<◌, ◌≤◌};

use bits::{bits_of, float_of, get_low};
use limits::SLOTS;

// As many places as were lent before.
pub const PLACES: usize = 256;

// The bits of the mark, which is 7.
const MARK: u64 = 0x401c_0000_0000_0000;

// By a number: -0, the infinite, NaN, the least, the infinite negated, a huge one, 0 and the greatest negated.
fn odd(i: usize) -> f64 {
    match i % 8 {
        0 => float_of(0x8000_0000_0000_0000),
        1 => float_of(0x7ff0_0000_0000_0000),
        2 => float_of(0x7ff8_0000_0000_0000),
        3 => float_of(1),
        4 => float_of(0xfff0_0000_0000_0000),
        5 => float_of(0x7e37_e43c_8800_759c),
        6 => 0.0,
        _ => float_of(0xffef_ffff_ffff_ffff),
    }
}

// Float i of the mixture: one of these at every seventh, and else one that grows with i from a half on, every third
// negated.
fn mixed(i: usize) -> f64
    requires { i < 512 }
{
    if i % 7 == 3 {
        return odd(i / 7);
    }
    let bits = 0x3fe0_0000_0000_0000 + i as u64 * 0x3b00_0000_0123;
    if i % 3 == 1 {
        return float_of(bits + 0x8000_0000_0000_0000);
    }
    float_of(bits)
}

// The mixture from float k on, and the mark.
pub fn mixture(k: usize) -> [f64; SLOTS]
    requires { k ≤ 256 }
{
    let mut values = [float_of(MARK); SLOTS];
    for (i, value) in values[..PLACES].iter_mut().enumerate() {
        *value = mixed(k + i);
    }
    values
}

// The bits that place i must have: those of a file, from a byte on, and behind them those of the mark.
fn wanted(left: &[u8], from: usize, i: usize) -> u64
    requires { (from < 65536) × (i < 1024) }
{
    if PLACES <= i {
        return MARK;
    }
    let o = from + 8 * i;
    if left.len() < o {
        return 0;
    }
    get_low(&left[o..], 8)
}

// Whether all places have the bits that they must have. All NaNs are one.
pub fn same_bits(values: &[f64; SLOTS], left: &[u8], from: usize) -> bool
    requires { from < 65536 }
{
    values
        .iter()
        .enumerate()
        .all(|(i, value)| bits_of(*value) == wanted(left, from, i))
}
