// A byte ring of bounded capacity, over memory that is got once.
#![tactic(auto)]

ghost use Rattle.std.specs.Prelude.{◌≡◌, ℕ, ◌+◌, ◌-◌, ◌≤◌, min, List, [], ◌++◌, length, take, drop, IfOk, IsTrue, ◌↔◌, vec_items, vec_len};
ghost use Rattle.ring.specs.Held.{held_from, turned};

use std::alloc::{AllocError, Global};
use std::marker::Model;

pub mod buffers;

// `len` bytes are held, from `head` on; behind the end of the memory they go on at its beginning. `head` and `len` lie in 0..=N.
// Kept: a `VecDeque` may allocate as bytes come, and hands them out one by one.
#[derive(Drop)]
pub struct Ring<const N: usize> {
    head: usize,
    len: usize,
    memory: Vec<u8>,
}

// Clauses see the bytes, in the order in which they came.
impl<const N: usize> Model for Ring<N> {
    ghost Value = { List ℕ };

    ghost view = { λ r. held_from r.head r.len (vec_items r.memory) };

    ghost invariant = { λ r. (r.head ≤ N) × (r.len ≤ N) × (vec_len r.memory ≡ N) };
}

impl<const N: usize> Ring<N> {
    // An empty ring; `Err` where there is no memory for it.
    pub fn new(heap: Global) -> Result<Ring<N>, AllocError>
        ensures { IfOk result (λ r. r ≡ []) }
    {
        let memory = vec![in heap; 0u8; N]?;
        Ok(Ring {
            head: 0,
            len: 0,
            memory,
        })
    }

    pub fn len(&self) -> usize
        ensures count { result ≡ length self.now }
        ensures within { length self.now ≤ N }
    {
        self.len
    }

    pub fn is_empty(&self) -> bool
        ensures { IsTrue result ↔ (self.now ≡ []) }
    {
        self.len() == 0
    }

    // How many more bytes it can hold.
    pub fn room(&self) -> usize
        ensures { result + length self.now ≡ N }
    {
        N - self.len
    }

    pub fn clear(&mut self)
        ensures { self.new ≡ [] }
    {
        self.head = 0;
        self.len = 0;
    }

    // The bytes go behind those that are held.
    pub fn append(&mut self, more: &[u8])
        requires { length self.old + length more.now ≤ N }
        ensures { self.new ≡ self.old ++ more.now }
    {
        let to_end = N - self.head;
        let tail = if self.len < to_end {
            self.head + self.len
        } else {
            self.len - to_end
        };
        write_from(self.memory.as_mut_slice(), tail, more);
        self.len += more.len();
    }

    // Moves the first bytes out, as many as are held and `out` has place for.
    pub fn take(&mut self, out: &mut [u8]) -> usize
        ensures count { result ≡ min (length out.old) (length self.old) }
        ensures bound { result ≤ N }
        ensures taken { out.new ≡ take result self.old ++ drop result out.old }
        ensures left { self.new ≡ drop result self.old }
    {
        let count = out.len().min(self.len);
        let to_end = N - self.head;
        read_from(self.memory.as_slice(), self.head, &mut out[0..count]);
        self.head = if count < to_end {
            self.head + count
        } else {
            count - to_end
        };
        self.len -= count;
        count
    }
}

// Writes the bytes from `tail` on, and what does not fit behind it at the beginning.
fn write_from(memory: &mut [u8], tail: usize, more: &[u8])
    requires { (tail ≤ length memory.old) × (length more.now ≤ length memory.old) }
    ensures { turned tail memory.new ≡ more.now ++ drop (length more.now) (turned tail memory.old) }
{
    let count = more.len();
    let straight = count.min(memory.len() - tail);
    (&mut memory[tail..tail + straight]).copy_from_slice(&more[0..straight]);
    (&mut memory[0..count - straight]).copy_from_slice(&more[straight..count]);
}

// Fills `out` with the bytes from `head` on, and then with those at the beginning.
fn read_from(memory: &[u8], head: usize, out: &mut [u8])
    requires { (head ≤ length memory.now) × (length out.old ≤ length memory.now) }
    ensures { out.new ≡ take (length out.old) (turned head memory.now) }
{
    let count = out.len();
    let straight = count.min(memory.len() - head);
    (&mut out[0..straight]).copy_from_slice(&memory[head..head + straight]);
    (&mut out[straight..count]).copy_from_slice(&memory[0..count - straight]);
}
