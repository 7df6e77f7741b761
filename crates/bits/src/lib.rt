// Numbers as bytes, low first, and floats as their bits; reads that give 0 past an end.
#![tactic(auto)]

ghost use Rattle.std.specs.Prelude.{◌≡◌, ◌+◌, leb};
ghost use Rattle.std.proofs.lemmas.List.Edits.{sets};
ghost use Rattle.bits.specs.Low.{low_bytes};
ghost use Rattle.bits.specs.Contract.{TakesLeast, LeavesRoom, GetsLow, PutsBytes, PutsLow, PutsEight, PutsAt};
ghost use Rattle.bits.specs.Contract.{GivesFloat, GivesBits};

pub mod reads;

use reads::wide;

// ---- numbers as bytes

// The lesser of two numbers.
pub fn least(a: usize, b: usize) -> usize
    ensures { TakesLeast a b result }
{
    a.min(b)
}

// How many of n places from a place on stand before an end.
pub fn room(end: usize, at: usize, n: usize) -> usize
    ensures { LeavesRoom end at n result }
{
    end.saturating_sub(at).min(n)
}

// The number that the first n bytes of a part are, or as many as there are; of more than eight the first eight.
pub fn get_low(part: &[u8], n: usize) -> u64
    ensures { GetsLow part.now n result }
{
    let mut word: u64 = 0;
    for i in (0..part.len().min(n.min(8))).rev() {
        word = wide(part[i]) + 256 * word;
    }
    word
}

// Writes bytes from a place on, those for which there is a place.
pub fn put_bytes(buf: &mut [u8], at: usize, from: &[u8])
    ensures { PutsBytes buf.old at from.now buf.new }
{
    let n = room(buf.len(), at, from.len());
    for i in 0..n {
        buf[at + i] = from[i];
    }
}

// Writes the n lowest bytes of a number from a place on, those for which there is a place.
pub fn put_low(buf: &mut [u8], at: usize, n: usize, v: u64)
    ensures { PutsLow buf.old at n v buf.new }
{
    let count = room(buf.len(), at, n);
    let mut rest = v;
    for i in 0..count {
        buf[at + i] = (rest % 256) as u8;
        rest = rest / 256;
    }
}

// Stores a value at place i, if there is one.
pub fn put<T: Copy>(s: &mut [T], i: usize, v: T)
    ensures { PutsAt s.old i v s.new }
{
    if i < s.len() {
        s[i] = v;
    }
}

// The float of a bit pattern. All patterns of a NaN are the one NaN.
pub fn float_of(bits: u64) -> f64
    ensures { GivesFloat bits result }
{
    if 0x7ff0_0000_0000_0000 < bits % 0x8000_0000_0000_0000 {
        0.0 / 0.0
    } else {
        f64::from_bits(bits)
    }
}

// The bit pattern of a float. A NaN has one pattern, whatever the machine holds.
pub fn bits_of(x: f64) -> u64
    ensures { GivesBits x result }
{
    if x != x {
        0x7ff8_0000_0000_0000
    } else {
        f64::to_bits(x)
    }
}

// Writes the eight lowest bytes, at once where each has its place.
pub fn put_eight(buf: &mut [u8], at: usize, v: u64)
    ensures { PutsEight buf.old at v buf.new }
{
    let bytes = v.to_le_bytes();
    if room(buf.len(), at, 8) == 8 {
        buf[at..at + 8].copy_from_slice(&bytes);
    } else {
        put_bytes(buf, at, &bytes);
    }
}
