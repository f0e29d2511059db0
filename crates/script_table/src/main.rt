// A table of scripts and their listings. Each line of standard input is a script, in which a `;` stands for byte 10:
// what is printed is that line, cut at 60 bytes, and then the script's listing.
#![tactic(auto)]

use listing::{PAGE, listing};
use std::io;
use std::io::{BufRead, Write};

// How much is printed of a line.
const CUT: usize = 60;

fn main(rt: HostRuntime) -> io::Result<()> {
    let mut input = rt.reader();
    // One row for all lines, since the library's `split` makes one for each.
    let mut line = Vec::new(rt.alloc());
    // A count, since nothing measures how much input is left.
    for _ in 0..u64::MAX {
        line.clear();
        if input.read_until(b'\n', &mut line)? == 0 {
            break;
        }
        // A line is what stands before its last byte, be that byte 10 or not.
        let _ = line.pop();
        show(&rt, &mut line)?;
    }
    Ok(())
}

fn show(rt: &HostRuntime, line: &mut [u8]) -> io::Result<()> {
    let shown = line.len().min(CUT);
    rt.stdout().write_all(b"> ")?;
    rt.stdout().write_all(&line[..shown])?;
    rt.stdout().write_all(b"\n")?;
    for byte in line.iter_mut() {
        if *byte == b';' {
            *byte = b'\n';
        }
    }
    // As in the program `forecast`: a crate for these lines would be longer than they are.
    let mut page = [0; PAGE];
    match listing(line, &mut page) {
        Ok(length) => rt.stdout().write_all(&page[..length]),
        Err(fault) => println!(rt; "{fault}"),
    }
}
