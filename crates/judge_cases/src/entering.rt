//! Barriers that ranks enter before or after their start, and the line that each text must give.

use crate::saying::says;
use std::test::Fail;

/// A description of one barrier, of eight lines, and a plan for it up to its third link. Cell 4 waits for nothing, and sends a message to
/// cell 5.
const BEGINNING: &str = "coll 1\nranks 2\ninput a u8 1\n7\n9\nbarrier\nprint a\nend\n\
    plan 2 9 8 local\n\
    cell 0 0 u8 - 0 1\n\
    cell 1 1 u8 - 0 1\n\
    cell 2 0 u8 - 1 1\n\
    cell 3 1 u8 - 1 1\n\
    cell 4 0 u8 - 0 0\n\
    cell 5 1 u8 - 0 1\n\
    cell 6 0 u8 - 0 1\n\
    cell 7 0 u8 - 0 2\n\
    cell 8 1 u8 - 0 2\n\
    link 0 0 0 0 2 0 bump\n\
    link 1 1 0 0 3 0 bump\n\
    link 2 4 0 0 5 0 put\n";

/// Its other links but link 3, which comes to cell 6, its done counters and results, up to line 30. The ranks leave at cells 7 and 8, to
/// which cells 5 and 6 lead.
const OTHERS: &str = "link 4 6 0 0 7 0 bump\n\
    link 5 5 0 0 7 0 put\n\
    link 6 5 0 0 8 0 bump\n\
    link 7 6 0 0 8 0 put\n\
    done 0 5\ndone 1 4\nresult a 0 2\nresult a 1 3\n";

const LEAVES: &str = "leave 0 0 7\nleave 0 1 8\n";

/// Link 3, the lines of the barrier, and the answer.
const ROWS: [[&str; 4]; 7] = [
    [
        "2 0 0 6 0 bump\n",
        "enter 0 0 6\nenter 0 1 5\n",
        LEAVES,
        "holds\n",
    ],
    // A bump from a cell that waits for nothing, and a message from it.
    [
        "4 0 0 6 0 bump\n",
        "enter 0 0 6\nenter 0 1 5\n",
        LEAVES,
        "fails 31 EarlyEntry\n",
    ],
    [
        "4 0 0 6 0 put\n",
        "enter 0 0 6\nenter 0 1 5\n",
        LEAVES,
        "holds\n",
    ],
    [
        "4 0 0 6 0 bump\n",
        LEAVES,
        "enter 0 1 5\nenter 0 0 6\n",
        "fails 34 EarlyEntry\n",
    ],
    // The cell that waits for nothing, and the go cell.
    [
        "2 0 0 6 0 bump\n",
        "enter 0 0 4\nenter 0 1 5\n",
        LEAVES,
        "fails 31 EarlyEntry\n",
    ],
    [
        "2 0 0 6 0 bump\n",
        "enter 0 0 0\nenter 0 1 5\n",
        LEAVES,
        "holds\n",
    ],
    [
        "4 0 0 6 0 bump\n",
        "enter 0 0 0\nenter 0 1 5\n",
        LEAVES,
        "fails 33 BarrierOpen\n",
    ],
];

#[test]
fn entries_and_starts(rt: HostRuntime) -> Result<(), Fail> {
    let alloc = rt.alloc();
    for [link, some, others, wanted] in ROWS {
        let text = format!(in alloc; "{BEGINNING}link 3 {link}{OTHERS}{some}{others}end\n")?;
        says(&rt, alloc, text.as_str(), wanted)?;
    }
    Ok(())
}
