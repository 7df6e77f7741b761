// The middle language between grammar and program: drafts, each a kind and an argument. A draft is a record to be, with
// a name's key in the place of its slot.
#![tactic(auto)]

ghost use Rattle.drafts.specs.Contract.{WhetherDefining, WhetherUse, WhetherAsking, WhetherNamed, WhetherClosing};
ghost use Rattle.drafts.specs.Contract.{CountsDraft, FindsHome, FindsLast};

use bits::reads::short_at;

// ---- the kinds; 1 to 15 are those of the records that are written

// A constant's name, and an initial's state.
pub const CONSTANT: u8 = 1;

pub const INITIAL: u8 = 2;

// Behind each of these its value: the bits of a number, or the name of a constant.
pub const NUMBER: u8 = 0;

pub const FROM: u8 = 16;

// An expression in postfix: push a value, what a name holds, or TIME; the operations.
pub const PUSH: u8 = 3;

pub const FETCH: u8 = 4;

pub const CLOCK: u8 = 17;

pub const PLUS: u8 = 5;

pub const MINUS: u8 = 6;

pub const TIMES: u8 = 7;

pub const OVER: u8 = 8;

pub const NEGATE: u8 = 9;

pub const INSW: u8 = 10;

pub const LIMIT: u8 = 11;

pub const COMPAR: u8 = 12;

// What is done with its value: stored to a name, taken as the derivative of a state.
pub const STORE: u8 = 13;

pub const RATE: u8 = 14;

// Inside a block: stored to a name that is set above; the first time to an output, or to a name of the block's own;
// push what a name holds, where it is not asked for.
pub const AGAIN: u8 = 15;

pub const GIVEN: u8 = 18;

pub const OWN: u8 = 19;

pub const READ: u8 = 20;

// A header's outputs and inputs, and a block's end.
pub const OUTPUT: u8 = 21;

pub const INPUT: u8 = 22;

pub const ENDING: u8 = 23;

// ---- what a kind is for

// Whether a draft of this kind defines its name. Every comparison is made, so that many kinds are tested at once.
pub fn is_defining(kind: u8) -> bool
    ensures { WhetherDefining kind result }
{
    (kind == CONSTANT) | (kind == INITIAL) | (kind == STORE) | (kind == GIVEN) | (kind == OWN)
}

// Whether it uses what assigns its name.
pub fn is_use(kind: u8) -> bool
    ensures { WhetherUse kind result }
{
    matches!(kind, FETCH | INPUT)
}

// Whether it asks for a name that must be defined.
pub fn is_asking(kind: u8) -> bool
    ensures { WhetherAsking kind result }
{
    matches!(kind, FETCH | INPUT | FROM)
}

// Whether its argument is a name's key.
pub fn is_named(kind: u8) -> bool
    ensures { WhetherNamed kind result }
{
    matches!(
        kind,
        CONSTANT
            | INITIAL
            | FETCH
            | STORE
            | RATE
            | AGAIN
            | FROM
            | GIVEN
            | OWN
            | READ
            | OUTPUT
            | INPUT
    )
}

// Whether it closes a unit of the order.
pub fn is_closing(kind: u8) -> bool
    ensures { WhetherClosing kind result }
{
    matches!(kind, STORE | RATE | ENDING)
}

// How many records it writes: one or none.
pub fn records_of(kind: u8) -> usize
    ensures { CountsDraft kind result }
{
    match kind {
        CONSTANT..=AGAIN | CLOCK..=READ => 1,
        _ => 0,
    }
}

// ---- drafts by place

// The last place of statement j.
pub fn last_of(bounds: &[u16], j: usize) -> usize
    ensures { FindsLast bounds.now j result }
{
    short_at(bounds, j.saturating_add(1)).saturating_sub(1)
}

// The place at which a slot is defined, if places are those of the definitions.
pub fn home_of(places: &[u16], slot: u64) -> usize
    ensures { FindsHome places.now slot result }
{
    short_at(places, slot.saturating_sub(1) as usize)
}
