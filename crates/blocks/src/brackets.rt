// What a statement is to a block, by its first draft.
ghost use Rattle.std.specs.Prelude.{◌≡◌, ◌≤◌, length};
ghost use Rattle.limits.specs.Limits.{most_statements};
ghost use Rattle.laws.specs.Places.{any_in};
ghost use Rattle.blocks.specs.Places.{leading_kind, bracket_kind};
ghost use Rattle.blocks.specs.Working.{is_bracket, bracketed, Stands, AllStand};

use bits::reads::index;
use drafts::{ENDING, NUMBER, OUTPUT};
use sheet::Sheet;

// The kind of the first draft of statement j, that of a number where it has none.
pub(crate) fn leading_kind(s: &Sheet, j: usize) -> u8
    requires { Stands s.now.bounds.now s.now.kinds.now j }
    ensures { result ≡ leading_kind s.now.bounds.now s.now.kinds.now j }
{
    let begin = index(s.bounds[j]);
    if begin < index(s.bounds[j + 1]) {
        return s.kinds[begin];
    }
    NUMBER
}

// Whether a statement whose first draft is of this kind is a header or an end.
fn is_bracket(kind: u8) -> bool
    ensures { result ≡ is_bracket (bracket_kind kind) }
{
    matches!(kind, OUTPUT | ENDING)
}

// Whether one of the statements is.
pub(crate) fn has_bracket(s: &Sheet) -> bool
    requires { (length s.now.lines.now ≤ most_statements)
        × AllStand (length s.now.lines.now) s.now.bounds.now s.now.kinds.now }
    ensures { result ≡ any_in (bracketed s.now.bounds.now s.now.kinds.now) (length s.now.lines.now) 0 }
{
    (0..s.lines.len()).any(|j| is_bracket(leading_kind(s, j)))
}
