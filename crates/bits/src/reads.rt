// Numbers of lists: each as a larger one, and each at a place, 0 past the end.
ghost use Rattle.bits.specs.Contract.{Widens, Indexes, ReadsByte, ReadsShort, ReadsWord};

// A byte as a larger number.
pub fn wide(b: u8) -> u64
    ensures { Widens b result }
{
    b as u64
}

// A number of two bytes as an index.
pub fn index(x: u16) -> usize
    ensures { Indexes x result }
{
    x as usize
}

// The byte at place i.
pub fn byte_at(s: &[u8], i: usize) -> u8
    ensures { ReadsByte s.now i result }
{
    s.get(i).copied().unwrap_or(0)
}

// The number of two bytes at place i.
pub fn short_at(s: &[u16], i: usize) -> usize
    ensures { ReadsShort s.now i result }
{
    s.get(i).map_or(0, |&x| index(x))
}

// The number of eight bytes at place i.
pub fn word_at(s: &[u64], i: usize) -> u64
    ensures { ReadsWord s.now i result }
{
    s.get(i).copied().unwrap_or(0)
}
