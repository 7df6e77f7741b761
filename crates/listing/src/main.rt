// The listing program: reads a text from standard input to its end, and writes its listing.
#![tactic(auto)]

ghost use Rattle.std.specs.Prelude.{◌≤◌, length};

use limits::{STATEMENTS, TEXT_BYTES};
use std::io;
use std::io::Read;

// A byte more than a text may have: what is longer is refused by its size, whatever follows.
const READ: usize = TEXT_BYTES + 1;

// More bytes than a line of a listing has: two letters or a line's number, a space, a number and its end.
const LINE: usize = 12;

// More than the longest listing has: a line for the verdict and one for each statement.
const LISTED: usize = LINE * (STATEMENTS + 1);

// Writes the first m bytes, or says that there are not so many.
fn write_front(rt: &(impl Print + Eprint), out: &[u8], m: usize) -> io::Result<()> {
    if out.len() < m {
        return eprintln!(rt; "the listing is longer than its room");
    }
    rt.write_all(&out[..m])
}

// Reads until the buffer is full, the input ends or a read fails; how many bytes.
fn read_full(input: &mut impl Read, buf: &mut [u8]) -> usize
    ensures { result ≤ length buf.new }
{
    let mut done: usize = 0;
    while done < buf.len() {
        match input.read(&mut buf[done..]) {
            Ok(0) => return done,
            Ok(n) => done += n,
            Err(_) => return done,
        }
    }
    done
}

// Whether the input has ended: a read gives no byte and does not fail.
fn at_end(input: &mut impl Read) -> bool {
    let mut byte = [0u8; 1];
    match input.read(&mut byte) {
        Ok(n) => n == 0,
        Err(_) => false,
    }
}

// Reads, lists, writes. A text whose reading failed before its end is not listed.
fn main(rt: HostRuntime) -> io::Result<()> {
    let mut input = rt.stdin();
    let mut text = [0u8; READ];
    let mut out = [0u8; LISTED];
    let n = read_full(&mut input, &mut text);
    if n < READ {
        if !at_end(&mut input) {
            return eprintln!(&rt; "the text could not be read to its end");
        }
    }
    let m = listing_text::list(&text[..n], &mut out);
    write_front(&rt, &out, m)
}
