// The bytes of one channel that wait each way.
ghost use Rattle.std.specs.Prelude.{◌≡◌, [], IfOk};

use crate::Ring;
use std::alloc::{AllocError, Global};

#[derive(Drop)]
pub struct Buffers<const IN: usize, const OUT: usize> {
    pub input: Ring<IN>,
    pub output: Ring<OUT>,
}

impl<const IN: usize, const OUT: usize> Buffers<IN, OUT> {
    // Both empty; `Err` where there is no memory for them.
    pub fn new(heap: Global) -> Result<Buffers<IN, OUT>, AllocError>
        ensures { IfOk result (λ b. b ≡ record { input = []; output = [] }) }
    {
        let input = Ring::new(heap)?;
        let output = Ring::new(heap)?;
        Ok(Buffers { input, output })
    }

    pub fn clear(&mut self)
        ensures { self.new ≡ record { input = []; output = [] } }
    {
        self.input.clear();
        self.output.clear();
    }
}
