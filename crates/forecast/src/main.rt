// Prints when the jobs of a script on standard input fire: its first firings from moment 0, or why it is refused.
#![tactic(auto)]

use arrayvec::ArrayVec;
use listing::{MOST_BYTES, PAGE, listing};
use std::io;
use std::io::{Read, Write};

// One byte more than a script may have shows that it is too long, however long it is.
const ENOUGH: usize = MOST_BYTES + 1;

fn main(rt: HostRuntime) -> io::Result<()> {
    // Fixed memory, so that no script is refused for want of it.
    let mut script: ArrayVec<u8, ENOUGH> = ArrayVec::new();
    io::copy(&mut rt.stdin().take(ENOUGH as u64), &mut script)?;
    let mut page = [0; PAGE];
    match listing(&script, &mut page) {
        Ok(length) => rt.stdout().write_all(&page[..length]),
        Err(fault) => println!(rt; "{fault}"),
    }
}
