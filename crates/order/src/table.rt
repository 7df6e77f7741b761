// Statements in a table, and whether it fits.
ghost use Rattle.std.specs.Prelude.{◌≡◌, ℕ, ◌+◌, ◌≤◌, ◌<◌, ◌↔◌, length, get_or, IsTrue, MatchOption};
ghost use Rattle.order.specs.Table.{Fit};

use limits::STATEMENTS;

// A table of n statements that fits: i uses used[starts[i]..starts[i + 1]].
#[derive(Drop)]
pub struct Table<'a> {
    pub n: usize,
    pub starts: &'a [u16],
    pub used: &'a [u16],
    pub ghost fit: { Fit n starts.now used.now },
}

// Whether the uses of each of the n end within size places.
fn uses_end(n: usize, starts: &[u16], size: usize) -> bool
    requires { n < length starts.now }
    ensures { IsTrue result ↔ ((i : ℕ) → i < n → get_or starts.now (i + 1) 0 ≤ size) }
{
    starts[1..n + 1].iter().all(|end| *end as usize <= size)
}

// Whether only statements below n are used.
fn used_below(n: usize, used: &[u16]) -> bool
    ensures { IsTrue result ↔ ((k : ℕ) → k < length used.now → get_or used.now k 0 < n) }
{
    used.iter().all(|j| (*j as usize) < n)
}

impl<'a> Table<'a> {
    // The table of n statements, if it fits.
    pub fn new(n: usize, starts: &'a [u16], used: &'a [u16]) -> Option<Table<'a>>
        ensures { MatchOption result (Fit n starts.now used.now → ⊥)
            (λ t. (t.n ≡ n) × (t.starts.now ≡ starts.now) × (t.used.now ≡ used.now)) }
    {
        if STATEMENTS < n || starts.len() <= n {
            return None;
        }
        if !uses_end(n, starts, used.len()) || !used_below(n, used) {
            return None;
        }
        Some(Table { n, starts, used })
    }
}
