// How many lines there are.
ghost use Rattle.std.specs.Prelude.{◌≡◌, ◌<◌, ◌≤◌, length};
ghost use Rattle.deck.specs.Ends.{ends_of};

// How many bytes are counted at once: fewer than a byte can count.
const PART: usize = 192;

// How many bytes 10 a short part has.
fn ends_in(part: &[u8]) -> u8
    requires { length part.now < 256 }
    ensures { result ≡ ends_of part.now }
{
    part.iter().map(|&b| u8::from(b == b'\n')).sum()
}

// How many bytes 10 a text has, counted part by part.
pub fn count_ends(text: &[u8]) -> usize
    ensures { (result ≡ ends_of text.now) × (result ≤ length text.now) }
{
    let mut n = 0;
    for part in text.chunks(PART) {
        n += usize::from(ends_in(part));
    }
    n
}
