// Reads a script from standard input, and prints what is said of it.
#![tactic(auto)]

use script::report::report;
use std::io;
use std::io::{Read, Write};

fn main(rt: HostRuntime) -> io::Result<()> {
    let heap = rt.alloc();
    let mut text = Vec::new(heap);
    rt.stdin().read_to_end(&mut text)?;
    let said = report(heap, text.as_slice())?;
    rt.stdout().write_all(said.as_slice())
}

#[cfg(test)]
mod tests {
    use super::*;
    use std::alloc::Global;
    use std::process::Abort;
    use std::test::Fail;

    fn says(rt: &impl Abort, heap: Global, text: &[u8], said: &[u8]) -> Result<(), Fail> {
        let found = report(heap, text)?;
        assert!(rt; found.as_slice() == said);
        Ok(())
    }

    // The script is the one line, which comes back as it is.
    fn stays(rt: &impl Abort, heap: Global, line: &[u8]) -> Result<(), Fail> {
        let mut said = line.to_vec(heap)?;
        said.extend_from_slice(b"\n1 commands\n")?;
        says(rt, heap, line, said.as_slice())
    }

    fn refused(rt: &impl Abort, heap: Global, line: &[u8]) -> Result<(), Fail> {
        says(rt, heap, line, b"14 1\n")
    }

    #[test]
    fn each_form(rt: HostRuntime) -> Result<(), Fail> {
        let heap = rt.alloc();
        stays(&rt, heap, b"user 255 open")?;
        stays(&rt, heap, b"user 1 shut")?;
        stays(&rt, heap, b"may 1 0")?;
        stays(&rt, heap, b"program 255 read 0 write \"a b\" end 65535 go")?;
        stays(&rt, heap, b"login 2")?;
        stays(&rt, heap, b"run 4294967295 255")?;
        stays(&rt, heap, b"type 7 \"\\x00\\\"\\\\ #~\\x7f\\xff\"")?;
        stays(&rt, heap, b"close 65535")?;
        stays(&rt, heap, b"take 3 0")
    }

    #[test]
    fn other_forms(rt: HostRuntime) -> Result<(), Fail> {
        let heap = rt.alloc();
        stays(&rt, heap, b"turn 0")?;
        stays(&rt, heap, b"round")?;
        stays(&rt, heap, b"arrive there")?;
        stays(&rt, heap, b"arrive here")?;
        stays(&rt, heap, b"arrive all")?;
        stays(&rt, heap, b"tick")?;
        stays(&rt, heap, b"cut here")?;
        stays(&rt, heap, b"cut far")?;
        stays(&rt, heap, b"cut both")?;
        stays(&rt, heap, b"connect")
    }

    #[test]
    fn comments_and_spaces(rt: HostRuntime) -> Result<(), Fail> {
        let heap = rt.alloc();
        says(&rt, heap, b"", b"0 commands\n")?;
        says(&rt, heap, b"\n  \n# all\n", b"0 commands\n")?;
        says(
            &rt,
            heap,
            b"  tick# now\n\nlogin   007",
            b"tick\nlogin 7\n2 commands\n",
        )?;
        says(
            &rt,
            heap,
            b"type 1 \"#\" # \"",
            b"type 1 \"#\"\n1 commands\n",
        )
    }

    #[test]
    fn bytes(rt: HostRuntime) -> Result<(), Fail> {
        let heap = rt.alloc();
        says(
            &rt,
            heap,
            b"type 1 3*\"ab\\x0A\"",
            b"type 1 \"ab\\x0aab\\x0aab\\x0a\"\n1 commands\n",
        )?;
        says(&rt, heap, b"type 1 1*\"\"", b"type 1 \"\"\n1 commands\n")?;
        refused(&rt, heap, b"type 1 0*\"a\"")?;
        refused(&rt, heap, b"type 1 65536*\"a\"")?;
        refused(&rt, heap, b"type 1 32769*\"ab\"")?;
        refused(&rt, heap, b"type 1 *\"a\"")?;
        refused(&rt, heap, b"type 1 2*a")?;
        refused(&rt, heap, b"type 1 \"a\"b")?;
        refused(&rt, heap, b"type 1 \"\t\"")
    }

    #[test]
    fn bad_lines(rt: HostRuntime) -> Result<(), Fail> {
        let heap = rt.alloc();
        refused(&rt, heap, b"fly 1")?;
        refused(&rt, heap, b"tick tick")?;
        refused(&rt, heap, b"user 0 open")?;
        refused(&rt, heap, b"login -1")?;
        refused(&rt, heap, b"run 4294967296 1")?;
        refused(&rt, heap, b"type 1 \"open")?;
        refused(&rt, heap, b"type 1 \"\\n\"")?;
        refused(&rt, heap, b"type 1 \"\\x0g\"")?;
        refused(&rt, heap, b"program 1")
    }

    #[test]
    fn more_bad_lines(rt: HostRuntime) -> Result<(), Fail> {
        let heap = rt.alloc();
        refused(&rt, heap, b"program 1 go read")?;
        refused(&rt, heap, b"cut there")?;
        refused(&rt, heap, b"Tick")?;
        says(&rt, heap, b"tick\n# ok\nuser 256 open\nfly", b"14 3\n")?;
        says(&rt, heap, b"tick\n\"", b"14 2\n")
    }
}
