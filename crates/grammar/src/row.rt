// The row that is read: its tokens' kinds and arguments.
ghost use Rattle.std.specs.Prelude.{◌≡◌, ◌≢◌, get_or};
ghost use Rattle.grammar.specs.Contract.{Needs};

use super::Misread;
use bits::reads::byte_at;
use faults::Fault;

// The tokens of a row, each with its kind and its argument.
#[derive(Clone, Copy)]
pub struct Row<'a> {
    pub kinds: &'a [u8],
    pub args: &'a [u64],
}

impl<'a> Row<'a> {
    // The kind of the token at place i, 0 past the end.
    pub fn kind(&self, i: usize) -> u8
        ensures { result ≡ get_or self.now.kinds.now i 0 }
    {
        byte_at(self.kinds, i)
    }

    // The place behind a token of this kind, which must stand at place i.
    pub fn need(&self, i: usize, kind: u8) -> Result<usize, Misread>
        requires { kind ≢ 0 }
        ensures { Needs self.now.kinds.now i kind result }
    {
        if self.kind(i) == kind {
            Ok(i + 1)
        } else {
            Err(Misread {
                fault: Fault::Ungrammatical,
                at: i,
            })
        }
    }
}
