//! Whole calls over memory, some in which a read or a put fails, a text or words are refused, or a gate holds the threads: prints what each leaves.
//!
//! Reads cases, one a line (`Case::of`), and prints of each the status, the rows, the bytes and the checksum of the output, and the notes.
//! What is printed is the same each time. Not here: any promise (dem_top).
#![tactic(auto)]

mod case;
mod left;

use crate::case::Case;

fn main(rt: HostRuntime) -> anyhow::Result<()> {
    for line in rt.lines(rt.alloc()) {
        let line = line?;
        let Some(case) = Case::of(line.as_str()) else {
            println!(rt; "no case")?;
            continue;
        };
        match case.call(&rt, rt.alloc()) {
            Ok(left) => println!(rt; "{left}")?,
            Err(_) => println!(rt; "out of memory")?,
        }
    }
    Ok(())
}
