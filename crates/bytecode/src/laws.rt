// The laws of programs and their bytes: each is the promise of a function that does nothing.
ghost use Rattle.bytecode.specs.Laws.{BytesTell, RefusedIsNone};

// No two programs have the same bytes.
pub fn bytes_tell()
    ensures { BytesTell }
{}

// What is refused is no program.
pub fn refused_is_none()
    ensures { RefusedIsNone }
{}
