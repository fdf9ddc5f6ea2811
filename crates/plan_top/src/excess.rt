//! Why a description's plan is too large, as a note says it.

ghost use Rattle.std.specs.Prelude.{◌≡◌};
ghost use Rattle.plan_top.specs.Excess.{excess_of};

use schedule_compiler::CompileFault;
use schedule_compiler::shapes::{MOST_BYTES, MOST_LINKS};
use text_notes::notes::{Cause, Excess, Limit};

/// The step up to and with which a description's plan is too large, and why. None: there was no memory instead.
pub(crate) fn excess_of(fault: CompileFault) -> Option<(u32, Cause)>
    ensures { result ≡ excess_of fault }
{
    match fault {
        CompileFault::TooMany { step } => Some((
            step,
            Cause::TooMany(Limit::Links {
                most: MOST_LINKS as u32,
            }),
        )),
        CompileFault::TooLarge { step } => Some((
            step,
            Cause::TooLarge(Excess::Cells {
                most: MOST_BYTES as u32,
            }),
        )),
        CompileFault::NoMemory => None,
    }
}
