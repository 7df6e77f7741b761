// Translates the texts that no table proves: the other texts of the paper's table, numbers with each power of ten, the
// slips to shut out, texts with procedural blocks, texts with comments inside statements, texts for the places of
// faults, and texts at each limit. Verdict, faults, records and untouched bytes are compared with what the papers say.
// Then arrays that no text gives.
#![tactic(auto)]

mod arrays;
mod block_texts;
mod comment_texts;
mod limits_met;
mod made;
mod place_texts;
mod power_texts;
mod slips;
mod table;
mod wanted;

use tally::Tally;

// All groups, and the summary.
fn main(rt: HostRuntime) {
    let mut t = Tally::none();
    table::all(&rt, &mut t);
    power_texts::all(&rt, &mut t);
    slips::all(&rt, &mut t);
    block_texts::all(&rt, &mut t);
    comment_texts::all(&rt, &mut t);
    place_texts::all(&rt, &mut t);
    limits_met::all(&rt, &mut t);
    arrays::all(&rt, &mut t);
    t.finish(&rt);
}
