// Reserved words, compared with a name byte by byte.
ghost use Rattle.std.specs.Prelude.{◌≡◌};
ghost use Rattle.laws.specs.Lists.{same_bytes};
ghost use Rattle.tokens.specs.Held.{kind_named};

// Whether a name is a word: each byte is the same. Words are so short that a loop is done before `==` of slices begins.
fn spells(name: &[u8], word: &[u8]) -> bool
    ensures { result ≡ same_bytes name.now word.now }
{
    if name.len() != word.len() {
        return false;
    }
    for i in 0..word.len() {
        if name[i] != word[i] {
            return false;
        }
    }
    true
}

// The kind of a name: that of the reserved word that it spells, or a name's.
#[tactic(auto, unfolding(crate::specs::Held::kind_named, crate::specs::Symbol::look_up))]
pub fn kind_of(name: &[u8]) -> u8
    ensures { result ≡ kind_named name.now }
{
    if spells(name, b"CONST") || spells(name, b"PARAM") || spells(name, b"INCON") {
        crate::CONSTANTS
    } else if spells(name, b"INTGRL") {
        crate::INTGRL
    } else if spells(name, b"TIME") {
        crate::TIME
    } else if spells(name, b"INSW") {
        crate::INSW
    } else if spells(name, b"LIMIT") {
        crate::LIMIT
    } else if spells(name, b"COMPAR") {
        crate::COMPAR
    } else if spells(name, b"PROCED") {
        crate::PROCED
    } else if spells(name, b"ENDPRO") {
        crate::ENDPRO
    } else {
        crate::NAME
    }
}
