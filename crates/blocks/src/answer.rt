// Why units are not grouped or planned: too many definitions; so many faults, which are listed; or arrays that do not
// fit one another.
#[derive(Clone, Copy)]
pub enum Refusal {
    ManyDefinitions,
    Faults(usize),
    Unfit,
}
