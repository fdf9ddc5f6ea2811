//! Making a thing of a table.

ghost use Rattle.std.specs.Prelude.{◌≡◌, ◌<◌, None, Some, false, IfOk, IfErr, OnErr};
ghost use Rattle.ni_model.specs.Tables.{has_slot, handle, with_new};
ghost use Rattle.ni_model.specs.Refusals.{alloc_fault};

use ni_objects::handles::Store;
use ptl_types::{Handle, NiFault};

/// Puts a thing into a table; `NoSpace` where it is full.
pub fn make<T: Drop>(things: &mut Store<T>, value: T) -> Result<Handle, NiFault>
    ensures err { IfErr result (λ fault. alloc_fault things.old ≡ Some fault) }
    ensures unchanged { OnErr result (things.new ≡ things.old) }
    ensures ok { IfOk result (λ h. alloc_fault things.old ≡ None) }
    ensures stamp { IfOk result (λ h. h ≡ handle h.slot things.old.given) }
    ensures slot { IfOk result (λ h. h.slot < things.old.limit) }
    ensures free { IfOk result (λ h. has_slot h.slot things.old.live ≡ false) }
    ensures made { IfOk result (λ h. things.new ≡ with_new h.slot value things.old) }
{
    match things.insert(value) {
        Ok(handle) => Ok(handle),
        Err(_) => Err(NiFault::NoSpace),
    }
}
