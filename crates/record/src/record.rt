// What is kept of a file besides its bytes.
use crate::name::Name;
use blocks::Set;

// `count`: how often the name was put; `size`: the file's bytes; `blocks`: where they stand, in rising order.
#[derive(Clone, Copy)]
pub struct Record {
    pub name: Name,
    pub count: u64,
    pub size: u32,
    pub blocks: Set,
}
