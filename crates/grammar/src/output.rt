// The drafts that are written.
ghost use Rattle.std.specs.Prelude.{◌+◌, ◌≤◌, ◌<◌, length};
ghost use Rattle.grammar.specs.Contract.{op_drafts, SameBuffers, Emits, EmitsOp};

// The buffers of drafts, for their kinds and their arguments, and the place of the next draft.
#[derive(Drop)]
pub struct Output<'a> {
    pub kinds: &'a mut [u8],
    pub args: &'a mut [u64],
    pub place: usize,
}

impl<'a> Output<'a> {
    // Writes a draft.
    pub fn emit(&mut self, kind: u8, arg: u64)
        requires { (self.old.place < length self.old.kinds.now) × (self.old.place < length self.old.args.now) }
        ensures same { SameBuffers self.old self.new }
        ensures emits { Emits kind arg self.old self.new }
    {
        self.kinds[self.place] = kind;
        self.args[self.place] = arg;
        self.place += 1;
    }

    // Writes the draft of an operator, if there is one.
    pub fn emit_op(&mut self, op: Option<u8>)
        requires { (self.old.place + length (op_drafts op) ≤ length self.old.kinds.now)
            × (self.old.place + length (op_drafts op) ≤ length self.old.args.now) }
        ensures same { SameBuffers self.old self.new }
        ensures emits { EmitsOp op self.old self.new }
    {
        if let Some(kind) = op {
            self.emit(kind, 0);
        }
    }
}
