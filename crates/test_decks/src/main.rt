// Lists each example deck, and compares the listing with the one that stands beside it.
#![tactic(auto)]

ghost use Rattle.std.specs.Prelude.{◌≤◌, length};

use limits::TEXT_BYTES;
use std::fs;
use std::io::Read;
use std::rt::Files;
use tally::Tally;

// A byte more than a text may have.
const READ: usize = TEXT_BYTES + 1;

// More than the longest listing.
const LISTED: usize = 4096;

// Reads a file to the front of a buffer, until that is full, the file ends or a read fails; how many bytes, 0 where it
// can't be opened.
fn read_file(rt: &impl Files, path: &str, buf: &mut [u8]) -> usize
    ensures { result ≤ length buf.new }
{
    let Ok(mut file) = fs::open(rt, path) else {
        return 0;
    };
    let mut done: usize = 0;
    while done < buf.len() {
        match file.read(&mut buf[done..]) {
            Ok(0) => return done,
            Ok(n) => done += n,
            Err(_) => return done,
        }
    }
    done
}

// A deck has this listing.
fn listed(rt: &(impl Print + Files), t: &mut Tally, deck: &str, listing: &str) {
    let mut text = [0u8; READ];
    let mut wanted = [0u8; LISTED];
    let mut out = [0u8; LISTED];
    let n = read_file(rt, deck, &mut text);
    let k = read_file(rt, listing, &mut wanted);
    let m = listing_text::list(&text[..n], &mut out);
    t.right(rt, 0 < n);
    t.number(rt, m, k);
    t.right(rt, out == wanted);
}

// All decks, and the summary.
fn main(rt: HostRuntime) {
    let mut t = Tally::none();
    listed(&rt, &mut t, "tank.deck", "tank.listing");
    listed(&rt, &mut t, "furnace.deck", "furnace.listing");
    listed(&rt, &mut t, "full_tank.deck", "full_tank.listing");
    listed(&rt, &mut t, "grammar.deck", "grammar.listing");
    listed(&rt, &mut t, "long-name.deck", "long-name.listing");
    listed(&rt, &mut t, "long-run.deck", "long-run.listing");
    listed(&rt, &mut t, "loop.deck", "loop.listing");
    listed(&rt, &mut t, "star.deck", "star.listing");
    listed(&rt, &mut t, "undefined.deck", "undefined.listing");
    t.finish(&rt);
}
