// The stack of working values: a fixed array with their count. Its array is lent inside a run, so that nothing is
// copied.
ghost use Rattle.std.specs.Prelude.{◌≡◌};
ghost use Rattle.evaluator.specs.Stack.{emptied, below, Reaches, HasPlace, Yields};

use limits::STACK;

#[derive(Drop)]
pub struct Stack {
    pub items: [f64; STACK],
    pub count: usize,
}

// No value yet.
pub fn empty() -> Stack
    ensures { result ≡ emptied }
{
    Stack {
        items: [0.0; STACK],
        count: 0,
    }
}

// The value that k others stand on.
pub fn peek(items: &[f64; STACK], count: usize, k: usize) -> f64
    requires { Reaches k count }
    ensures { result ≡ below items.now count k }
{
    items[count - (k + 1)]
}

// The k topmost values give way to x. The new count is returned.
pub fn put(items: &mut [f64; STACK], count: usize, k: usize, x: f64) -> usize
    requires { HasPlace k items.old count }
    ensures { Yields k items.old count x items.new result }
{
    let at = count - k;
    items[at] = x;
    at + 1
}
