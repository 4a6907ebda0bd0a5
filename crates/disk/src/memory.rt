// A disk's blocks in memory.
use record::code::Block;

#[derive(Drop)]
pub struct Memory {
    pub blocks: Vec<Block>,
    pub up: bool,
}
