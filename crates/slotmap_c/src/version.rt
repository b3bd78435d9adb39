//! The version of the calls.

ghost use Rattle.std.specs.Prelude.{◌≡◌};

/// Returns the number that `slotmap.h` names `SLOTMAP_VERSION_NUMBER`.
#[unsafe(no_mangle)]
pub extern "C" fn slotmap_version_number() -> u32
    ensures { result ≡ 700 }
{
    700
}
