// Records, each of so many bytes, and the instruction that one holds.
#![tactic(auto)]

ghost use Rattle.std.specs.Prelude.{◌≡◌, ◌*◌, ◌/◌, ◌≤◌, MatchOption, length};
ghost use Rattle.std.specs.Float.{binary64};
ghost use Rattle.std.specs.Float.Ieee.{of_bits};
ghost use Rattle.limits.specs.Limits.{record_bytes};
ghost use Rattle.records.specs.Contract.{ReadsRecord, Decodes};

use bits::float_of;
use limits::{RECORD_BYTES, SLOTS};

// What a record does, with its slot or value; or the refusal, where it is none.
#[derive(Drop)]
pub enum Instr {
    Constant(u16, f64),
    Initial(u16, f64),
    Value(f64),
    Slot(u16),
    Add,
    Sub,
    Mul,
    Div,
    Neg,
    Insw,
    Limit,
    Compar,
    Store(u16),
    Deriv(u16),
    StoreAgain(u16),
    Bad,
}

// What a record holds, but for its line: its kind, with byte 1 above it, its slot and the bits of its value.
#[derive(Clone, Copy)]
struct Fields {
    kind: u16,
    slot: u16,
    bits: u64,
}

impl Fields {
    ghost use Rattle.records.specs.Fields.{by_kind, instr_of};
    ghost use Rattle.records.specs.Decode.{HoldsFields, with_fields};

    // The fields of record n, if there is one.
    fn at(program: &[u8], n: usize) -> Option<Fields>
        ensures { MatchOption result (length program.now / record_bytes ≤ n) (λ f. HoldsFields program.now (n * record_bytes) f) }
    {
        if program.len() / RECORD_BYTES <= n {
            return None;
        }
        let record = &program[n * RECORD_BYTES..];
        Some(Fields {
            kind: u16::from_le_bytes([record[0], record[1]]),
            slot: u16::from_le_bytes([record[2], record[3]]),
            bits: u64::from_le_bytes([
                record[8], record[9], record[10], record[11], record[12], record[13], record[14],
                record[15],
            ]),
        })
    }

    // The instruction of the kind: kinds 1 to 15, and all others.
    #[tactic(auto, using(crate::proofs::Decoding::unknown), unfolding(crate::specs::Fields::by_kind))]
    fn instr(&self) -> Instr
        ensures { result ≡ by_kind self.now.kind self.now.slot (of_bits binary64 self.now.bits) }
    {
        match self.kind {
            1 => Instr::Constant(self.slot, float_of(self.bits)),
            2 => Instr::Initial(self.slot, float_of(self.bits)),
            3 => Instr::Value(float_of(self.bits)),
            4 => Instr::Slot(self.slot),
            5 => Instr::Add,
            6 => Instr::Sub,
            7 => Instr::Mul,
            8 => Instr::Div,
            9 => Instr::Neg,
            10 => Instr::Insw,
            11 => Instr::Limit,
            12 => Instr::Compar,
            13 => Instr::Store(self.slot),
            14 => Instr::Deriv(self.slot),
            15 => Instr::StoreAgain(self.slot),
            0 | 16..=0xffff => Instr::Bad,
        }
    }

    // The same of a kind that uses slot and value, or not; or the refusal, where one that it does not use is not 0, or
    // the slot is none.
    fn using(&self, slotted: bool, valued: bool) -> Instr
        ensures { result ≡ with_fields slotted valued self.now.kind self.now.slot self.now.bits }
    {
        if !slotted && self.slot != 0 || !valued && self.bits != 0 || SLOTS <= self.slot as usize {
            return Instr::Bad;
        }
        self.instr()
    }

    // The same, where the kind decides what it uses: kinds 1 and 2 slot and value, 3 the value, 4 and 13 to 15 the
    // slot, 5 to 12 neither. No other kind is known.
    #[tactic(auto, using(crate::proofs::Decoding::unknown_refused), unfolding(crate::specs::Fields::instr_within))]
    fn checked(&self) -> Instr
        ensures { result ≡ instr_of self.now.kind 0 self.now.slot self.now.bits }
    {
        match self.kind {
            1..=2 => self.using(true, true),
            3 => self.using(false, true),
            4 => self.using(true, false),
            5..=12 => self.using(false, false),
            13..=15 => self.using(true, false),
            _ => Instr::Bad,
        }
    }
}

// The instruction of record n as its kind has it. Its unused fields are not looked at: it is for records that are known
// to be in order.
pub fn read(program: &[u8], n: usize) -> Instr
    ensures { ReadsRecord program.now n result }
{
    match Fields::at(program, n) {
        Some(f) => f.instr(),
        None => Instr::Bad,
    }
}

// The instruction of record n, or the refusal.
pub fn decode(program: &[u8], n: usize) -> Instr
    ensures { Decodes program.now n result }
{
    match Fields::at(program, n) {
        Some(f) => f.checked(),
        None => Instr::Bad,
    }
}
