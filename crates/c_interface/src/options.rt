//! Options as bits of a number.

ghost use Rattle.std.specs.Prelude.{◌≡◌};
ghost use Rattle.c_interface.specs.Forms.{has, unknown};

/// Whether a number has a bit.
pub fn has(options: u32, bit: u32) -> bool
    ensures { result ≡ has options bit }
{
    options & bit != 0
}

/// Whether a number has a bit that isn't one of those.
pub fn unknown(options: u32, known: u32) -> bool
    ensures { result ≡ unknown options known }
{
    options & known != options
}
