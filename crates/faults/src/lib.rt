// The faults of statements and of models, each with the paper's number.
#![tactic(auto)]

ghost use Rattle.std.specs.Prelude.{◌≡◌};
ghost use Rattle.faults.specs.Codes.{code_of};

// What is wrong with a statement: the text ends while it goes on; it has too many cards, or a card that is too long; a
// byte that begins no token; a name that is too long; a number that is malformed, or out of range; what the grammar
// does not know, or too many levels.
// What is wrong with a model: a name defined again, a name that nothing defines, an initial that is no constant, a unit
// that no order can hold; a header or an end without its mate, and what may not stand inside a block.
#[derive(Clone, Copy, PartialEq, Eq)]
pub enum Fault {
    Unended,
    ManyCards,
    LongCard,
    StrayByte,
    LongName,
    Malformed,
    OutOfRange,
    Ungrammatical,
    TooDeep,
    Redefined,
    Undefined,
    NoConstant,
    Unsortable,
    Unpaired,
    Misplaced,
}

// Its code, as the fault list has it.
impl From<Fault> for u8 {
    ghost from_gives = { λ fault code. code ≡ code_of fault };

    fn from(fault: Fault) -> u8 {
        match fault {
            Fault::Unended => 11,
            Fault::ManyCards => 12,
            Fault::LongCard => 13,
            Fault::StrayByte => 14,
            Fault::LongName => 15,
            Fault::Malformed => 16,
            Fault::OutOfRange => 17,
            Fault::Ungrammatical => 18,
            Fault::TooDeep => 19,
            Fault::Redefined => 21,
            Fault::Undefined => 22,
            Fault::NoConstant => 23,
            Fault::Unsortable => 24,
            Fault::Unpaired => 25,
            Fault::Misplaced => 26,
        }
    }
}
