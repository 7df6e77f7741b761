// What `plan` counts: the definitions, and the units of the order. The places of the definitions, these units and their
// order stand at the front of the arrays that were lent.
#[derive(Clone, Copy)]
pub struct Counts {
    pub definitions: usize,
    pub units: usize,
}
