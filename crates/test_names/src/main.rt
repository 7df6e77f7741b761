// Asks for the names of texts: small ones, refused ones, and large ones that a rule makes. The answer and both lent
// buffers are compared whole with what is wanted.
#![tactic(auto)]

mod large_texts;
mod named_texts;
mod refused_texts;
mod wanted;

use tally::Tally;

// All groups, and the summary.
fn main(rt: HostRuntime) {
    let mut t = Tally::none();
    named_texts::all(&rt, &mut t);
    refused_texts::all(&rt, &mut t);
    large_texts::all(&rt, &mut t);
    t.finish(&rt);
}
