//! What proofs and builds know of code: a case that never runs, an option that holds a value, a drop
//! that may unwind.
//!
//! For the crates of the maps and above. Each function here costs nothing. A build of these sources
//! as Rust has bodies of its own for them.

ghost use Rattle.std.specs.contracts.option.Option.{the_row};
ghost use Rattle.std.specs.Prelude.{◌≡◌, IsSome, Some, false};
ghost use Rattle.slotmap_core.specs.Words.{sem, Lends};

/// Rules out a case that is proved impossible: call it before `unreachable!`.
///
/// The code of `unreachable!` is a trap behind a test. Here an impossible write, beyond every slice,
/// precedes it. LLVM knows that no such write runs, and drops the test.
///
/// So this is only as safe as what the proof rests on. If a contract of the kit is wrong and the case
/// occurs, the program doesn't end there as with a trap: what it does then is undefined. A trap
/// costs some 12 to 31 instructions in a removal and an insert. A build as Rust has no such write.
///
/// ```
/// rule_out(false);
/// ```
#[inline(always)]
pub fn rule_out(case: bool)
    requires { case ≡ false }
    ensures { case ≡ false }
{
    if case {
        let nowhere: &mut [u8] = &mut [];
        nowhere[1 << 64] = 0;
    }
}

/// Returns what an option holds, as `unwrap` does, with no test.
#[inline(always)]
pub fn sure<T>(option: Option<T>) -> T
    requires { IsSome option }
    ensures { option ≡ Some result }
{
    match option {
        Some(value) => value,
        None => {
            rule_out(true);
            unreachable!()
        }
    }
}

/// Lends what an option holds, with no test.
#[inline(always)]
pub fn sure_mut<T>(option: &mut Option<T>) -> &mut T
    requires { IsSome option.old }
    ensures* writes_back { sem 𝓛 (Lends (the_row T.row) T.row option.entry result Some) }
    ensures value { option.old ≡ Some result.now }
{
    match option {
        Some(value) => value,
        None => {
            rule_out(true);
            unreachable!()
        }
    }
}

/// Returns whether dropping a value of type `T` may unwind.
///
/// In Rattle no drop unwinds, so the answer is `false`. A build of these sources as Rust answers
/// `std::mem::needs_drop::<T>()`: there a drop may panic. No clause tells the answer, so code that
/// asks is proved for both. Constant time, and the test is left out of machine code. Rust lacks this
/// call.
///
/// ```
/// // Where no drop unwinds, all values can go at once; else one by one, each already out of the map.
/// let at_once = !drop_may_unwind::<u64>();
/// assert!(rt; at_once);
/// ```
#[inline(always)]
pub fn drop_may_unwind<T>() -> bool {
    false
}
