// What a disk that crashes at a chosen write is made of.

// What a crash leaves in the block being written: its old bytes, its new ones, or zeros, which hold no record.
#[derive(Clone, Copy)]
pub enum Leaves {
    Old,
    New,
    Zeros,
}

// After `left` more writes it crashes in the next.
#[derive(Drop)]
pub struct Failing<D> {
    pub disk: D,
    pub left: u64,
    pub leaves: Leaves,
    pub up: bool,
}
