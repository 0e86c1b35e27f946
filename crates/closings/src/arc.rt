// An arc from one remaining node to another, by their positions, on a variable.
#[derive(Clone, Copy, PartialEq, Eq, Default, Debug)]
pub struct Arc {
    pub from: u32,
    pub to: u32,
    pub variable: u32,
}
