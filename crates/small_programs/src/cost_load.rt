//! What each call of an interface costs, with 1,000, 10,000 and 100,000 of everything in it. It prints how many things it filled an
//! interface with and how many calls of each kind were answered, and where that is asked for how many nanoseconds each took.

mod calls;
mod filled;
mod rows;

use std::io;

/// Prints the rows of one size.
fn print_size(rt: &HostRuntime, size: u32, timed: bool) -> io::Result<()> {
    println!(rt; "with {size} of everything")?;
    let Some(mut full) = filled::fill(rt.alloc(), size) else {
        return println!(rt; "  no memory");
    };
    for (kind, name) in rows::KINDS {
        let row = rows::measure(rt, &mut full, *kind)?;
        if timed {
            println!(rt;
                "  {name}: {} answered, {} ns each",
                row.answered,
                row.each()
            )?;
        } else {
            println!(rt; "  {name}: {} answered", row.answered)?;
        }
    }
    Ok(())
}

/// Prints the rows of each size.
pub fn print(rt: &HostRuntime, timed: bool) -> io::Result<()> {
    for size in [1_000, 10_000, 100_000] {
        print_size(rt, size, timed)?;
    }
    Ok(())
}
