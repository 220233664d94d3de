// The program `show`: reads a sheet from standard input and prints its book for a person, or why it is refused.
#![tactic(auto)]

use arrayvec::ArrayVec;
use report::describe::describe;
use std::io;
use std::io::{Read, Write};

/// The most bytes that are read, which is what the vector has room for. No sheet that loads is longer than 867 bytes.
const MOST_BYTES: usize = 1024;

fn main(rt: HostRuntime) -> io::Result<()> {
    let mut sheet = ArrayVec::<u8, MOST_BYTES>::new();
    io::copy(&mut rt.stdin().take(MOST_BYTES as u64), &mut sheet)?;
    let text = describe(sheet.as_slice());
    rt.stdout().write_all(text.as_bytes())
}
