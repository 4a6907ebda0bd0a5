// A file's name.

// Kept: a buffer and its length, since a name is a plain Copy value, and stands on the disk as it is.
// The first `size` of `bytes` count, at most 32.
#[derive(Clone, Copy)]
pub struct Name {
    pub size: u8,
    pub bytes: [u8; 32],
}
