// One side of a transfer, its source or its destination: where it starts, and whether it is fixed at the word there.
#[derive(Clone, Copy)]
pub struct Side {
    pub start: usize,
    pub fixed: bool,
}
