// The kinds inside blocks: a name fetched is read there, and a store says how it sets its name.
ghost use Rattle.std.specs.Prelude.{◌≡◌, ◌+◌, ◌-◌, ◌≤◌, ◌<◌, length, map, get_or};
ghost use Rattle.std.proofs.lemmas.List.Edits.{sets};
ghost use Rattle.limits.specs.Limits.{most_statements};
ghost use Rattle.laws.specs.Places.{gather};
ghost use Rattle.blocks.specs.Places.{bracket_at};
ghost use Rattle.blocks.specs.InsidePlaces.{role_by, role_kind, rewritten_kinds};
ghost use Rattle.blocks.specs.Working.{Stands, AllStand};
ghost use Rattle.blocks.specs.InsideWorking.{standing_in, role_in, store_kind, keys_role, roles_in, renewed, Turned};

use super::brackets::leading_kind;
use super::names::{is_named_by, is_set_above, is_setting, standing_behind};
use bits::put;
use bits::reads::{byte_at, short_at, word_at};
use drafts::{AGAIN, ENDING, FETCH, GIVEN, OUTPUT, OWN, READ, STORE, last_of};
use limits::STATEMENTS;
use sheet::Sheet;

// How a statement in a block sets its name: again; or for the first time, an output or a name of the block's own.
#[derive(Clone, Copy)]
enum Role {
    Again,
    Given,
    Own,
}

// What its store becomes.
impl From<Role> for u8 {
    ghost from_gives = { λ role kind. kind ≡ store_kind role };

    fn from(role: Role) -> u8 {
        match role {
            Role::Again => AGAIN,
            Role::Given => GIVEN,
            Role::Own => OWN,
        }
    }
}

// How statement j in the block of a header sets a name.
fn role_of(s: &Sheet, head: usize, j: usize, key: u64) -> Role
    requires { (head < j) × (j ≤ most_statements) }
    ensures { store_kind result ≡ keys_role s.now.bounds.now s.now.kinds.now s.now.args.now (head + 1) j key }
{
    if is_set_above(s, head + 1, j, key) {
        return Role::Again;
    }
    if is_named_by(s, OUTPUT, head, key) {
        return Role::Given;
    }
    Role::Own
}

// How statement j sets its name, which stands at c, if it does so inside a block.
fn role_at(s: &Sheet, c: Option<usize>, j: usize) -> Option<Role>
    requires { (standing_in c ≤ j) × (j ≤ most_statements) × Stands s.now.bounds.now s.now.kinds.now j }
    ensures { role_in result ≡ role_by s.now.bounds.now s.now.kinds.now s.now.args.now
        (bracket_at s.now.bounds.now s.now.kinds.now j) (standing_in c) j }
{
    let head = c?;
    match leading_kind(s, j) {
        OUTPUT | ENDING => None,
        _ if is_setting(s, j) => Some(role_of(s, head, j, word_at(s.args, last_of(s.bounds, j)))),
        _ => None,
    }
}

// Notes for each statement how it sets its name.
fn note_roles(s: &Sheet, roles: &mut [Option<Role>])
    requires { (length s.now.lines.now ≤ most_statements)
        × AllStand (length s.now.lines.now) s.now.bounds.now s.now.kinds.now }
    ensures { map role_in roles.new ≡ sets (map role_in roles.old) 0
        (roles_in (length s.now.lines.now) s.now.bounds.now s.now.kinds.now s.now.args.now) }
{
    let mut c = None;
    for j in 0..s.lines.len() {
        put(&mut *roles, j, role_at(s, c, j));
        c = standing_behind(s, j, c);
    }
}

// A draft's kind in a statement that sets its name so.
fn role_kind(role: Option<Role>, kind: u8) -> u8
    ensures { result ≡ role_kind (role_in role) kind }
{
    let Some(role) = role else {
        return kind;
    };
    match kind {
        FETCH => READ,
        STORE => role.into(),
        _ => kind,
    }
}

// Renews the kinds from a place on, before an end.
fn renew(role: Option<Role>, from: usize, end: usize, kinds: &mut [u8])
    ensures { kinds.new ≡ sets kinds.old from (renewed (role_in role) kinds.old from end) }
{
    for i in from..end {
        let kind = byte_at(kinds, i);
        put(&mut *kinds, i, role_kind(role, kind));
    }
}

// Renews the kinds of the statements, where it is noted how they set their names.
fn renew_all(roles: &[Option<Role>], bounds: &[u16], kinds: &mut [u8])
    requires { Turned (length roles.now) bounds.now kinds.old }
    ensures { kinds.new ≡ gather (λ j. renewed (get_or (map role_in roles.now) j 0) kinds.old
        (get_or bounds.now j 0) (get_or bounds.now (j + 1) 0)) (length roles.now) 0 }
{
    for (j, &role) in roles.iter().enumerate() {
        renew(
            role,
            short_at(bounds, j),
            short_at(bounds, j + 1),
            &mut *kinds,
        );
    }
}

// Renews the kinds of the statements.
pub(crate) fn rewrite(lines: &[u16], bounds: &[u16], kinds: &mut [u8], args: &[u64])
    requires { Turned (length lines.now) bounds.now kinds.old }
    ensures { kinds.new ≡ rewritten_kinds (length lines.now) bounds.now kinds.old args.now }
{
    let mut roles = [None; STATEMENTS];
    let s = Sheet {
        lines,
        bounds,
        kinds: &*kinds,
        args,
    };
    note_roles(&s, &mut roles);
    renew_all(&roles[..lines.len()], bounds, kinds);
}
