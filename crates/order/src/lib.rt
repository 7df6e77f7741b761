// The order of statements: each after all it uses, the least first.
#![tactic(auto)]

ghost use Rattle.std.specs.Prelude.{◌≡◌, ◌-◌, ◌≤◌, ◌<◌, ◌||◌, false, fold, length};
ghost use Rattle.limits.specs.Limits.{most_statements};
ghost use Rattle.order.specs.Greedy.{first};
ghost use Rattle.order.specs.Marks.{open_at, flag, none, below_end, hang, empty_desk, MaySettle, NonePlaced, Settles, Begun};
ghost use Rattle.order.specs.Marks.{Woken, Awake};
ghost use Rattle.order.specs.Contract.{Filled, Sorts};

use limits::STATEMENTS;
use table::Table;

mod table;

// No statement: where a list ends, and what a statement waits for that waits for none.
const NONE: u16 = STATEMENTS as u16;

// The most statements that are ordered in the smaller arrays.
const FEW: usize = 64;

// How many flags are looked at at once.
const STRIDE: usize = 16;

// What is kept of up to N statements while they are placed: for each whether it is placed, whether it is ready, how
// many of its uses its cursor is past, the first of those that wait for it, the one behind it in the list that it is
// in, and what it waits for.
#[derive(Drop)]
struct Desk<const N: usize> {
    marks: [bool; N],
    ready: [bool; N],
    cursors: [u16; N],
    heads: [u16; N],
    links: [u16; N],
    waits: [u16; N],
}

// Whether one of some flags is set. Each is looked at, so that many are at once.
fn has_one(part: &[bool]) -> bool
    ensures { result ≡ fold ◌||◌ false part.now }
{
    part.iter().fold(false, |found, set| found | *set)
}

// The first flag that is set from a place on and before n, looked for one by one.
fn seek_one(flags: &[bool], from: usize, n: usize) -> Option<usize>
    requires { n ≤ length flags.now }
    ensures { result ≡ below_end n (first (flag flags.now) (n - from) from) }
{
    for i in from..n {
        if flags[i] {
            return Some(i);
        }
    }
    None
}

// The same, where many are looked at at once.
fn seek(flags: &[bool], from: usize, n: usize) -> Option<usize>
    requires { (from ≤ n) × (n ≤ length flags.now) }
    ensures { result ≡ below_end n (first (flag flags.now) (n - from) from) }
{
    let mut i = from;
    while STRIDE <= n - i && !has_one(&flags[i..i + STRIDE]) {
        i += STRIDE;
    }
    seek_one(flags, i, n)
}

// The same; often it is the first that is looked at.
fn find(flags: &[bool], from: usize, n: usize) -> Option<usize>
    requires { (from ≤ n) × (n ≤ length flags.now) }
    ensures { result ≡ below_end n (first (flag flags.now) (n - from) from) }
{
    if from < n && flags[from] {
        return Some(from);
    }
    seek(flags, from, n)
}

impl<const N: usize> Desk<N> {
    // The first place from a place on and before an end whose statement is not placed.
    fn advance(&self, table: &Table, from: usize, end: usize) -> Option<usize>
        requires { (end ≤ length table.now.used.now) × (table.now.n ≤ N) }
        ensures { result ≡ below_end end (first (open_at table.now.used.now self.now.marks) (end - from) from) }
    {
        for k in from..end {
            if !self.marks[table.used[k] as usize] {
                return Some(k);
            }
        }
        None
    }

    // Puts statement i to the front of the list of those that wait for j.
    fn attach(&mut self, i: usize, j: usize)
        requires { (i < N) × (j < N) × (i < none) × (j < none) }
        ensures { self.new ≡ hang self.old i j }
    {
        self.links[i] = self.heads[j];
        self.heads[j] = i as u16;
        self.waits[i] = j as u16;
    }

    // Whether statement i, which is not placed, uses only placed ones. If not, its cursor moves to the first that is
    // not, and it waits for that.
    fn settle(&mut self, table: &Table, i: usize) -> bool
        requires { MaySettle table.now i self.old }
        ensures { Settles table.now i result self.old self.new }
    {
        let start = table.starts[i] as usize;
        let end = table.starts[i + 1] as usize;
        let passed = self.cursors[i] as usize;
        let Some(k) = self.advance(table, start + passed, end) else {
            return true;
        };
        self.cursors[i] = (k - start) as u16;
        self.attach(i, table.used[k] as usize);
        false
    }

    // The same while none is placed: i uses none, or waits for the first that it uses.
    fn settle_first(&mut self, table: &Table, i: usize) -> bool
        requires { MaySettle table.now i self.old × NonePlaced table.now.n self.old.marks }
        ensures { Settles table.now i result self.old self.new }
    {
        let start = table.starts[i] as usize;
        if table.starts[i + 1] as usize <= start {
            return true;
        }
        self.attach(i, table.used[start] as usize);
        false
    }

    // Settles each statement while none is placed.
    fn settle_all(&mut self, table: &Table)
        requires { (table.now.n ≤ N) × (self.old ≡ empty_desk N) }
        ensures { Begun table.now table.now.n self.new }
    {
        for i in 0..table.n {
            if self.settle_first(table, i) {
                self.ready[i] = true;
            }
        }
    }

    // Settles each statement that waits for j, which is placed; the least that is ready then, or j where that is less.
    fn wake(&mut self, table: &Table, j: usize) -> usize
        requires { Woken table.now j self.old }
        ensures { Awake table.now j self.old.marks self.new result }
    {
        let mut least_ready = j;
        let mut waiting = self.heads[j];
        self.heads[j] = NONE;
        while waiting < NONE {
            let x = waiting as usize;
            waiting = self.links[x];
            self.waits[x] = NONE;
            if self.settle(table, x) {
                self.ready[x] = true;
                least_ready = least_ready.min(x);
            }
        }
        least_ready
    }

    // Writes the order of a table to the front of out; how many were placed. Once i is placed only those that wait for
    // it may become ready.
    fn place(&mut self, table: &Table, out: &mut [u16]) -> usize
        requires { (table.now.n ≤ N) × (self.old ≡ empty_desk N) × (table.now.n ≤ length out.old) }
        ensures { Filled table.now.n table.now.starts.now table.now.used.now out.old out.new result }
    {
        self.settle_all(table);
        let mut from = 0;
        for k in 0..table.n {
            let Some(i) = find(&self.ready, from, table.n) else {
                return k;
            };
            out[k] = i as u16;
            self.marks[i] = true;
            self.ready[i] = false;
            from = self.wake(table, i);
        }
        table.n
    }
}

// The same at a desk of its own with room for N statements.
fn place_in<const N: usize>(table: &Table, out: &mut [u16]) -> usize
    requires { (N ≤ most_statements) × (table.now.n ≤ N) × (table.now.n ≤ length out.old) }
    ensures { Filled table.now.n table.now.starts.now table.now.used.now out.old out.new result }
{
    let mut desk = Desk {
        marks: [false; N],
        ready: [false; N],
        cursors: [0; N],
        heads: [NONE; N],
        links: [0; N],
        waits: [NONE; N],
    };
    desk.place(table, out)
}

// The order of the statements 0 .. n - 1, where i uses used[starts[i]..starts[i + 1]], to the front of out.
pub fn sort(n: usize, starts: &[u16], used: &[u16], out: &mut [u16]) -> Option<usize>
    ensures { Sorts n starts.now used.now out.old result out.new }
{
    if out.len() < n {
        return None;
    }
    let table = Table::new(n, starts, used)?;
    if n <= FEW {
        return Some(place_in::<FEW>(&table, out));
    }
    Some(place_in::<STATEMENTS>(&table, out))
}
