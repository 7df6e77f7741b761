// Lent buffers and their bits.
use bits::bits_of;
use limits::SLOTS;

// What lent buffers hold: 7 at each place.
pub fn sevens() -> [f64; SLOTS] {
    [7.0; SLOTS]
}

// Whether all places have the same bits. All NaNs are one.
pub fn same_bits(a: &[f64; SLOTS], b: &[f64; SLOTS]) -> bool {
    a.iter().zip(b).all(|(x, y)| bits_of(*x) == bits_of(*y))
}
