//! The version.

ghost use Rattle.std.specs.Prelude.{◌≡◌};

/// Returns the version 0.2.0 as one number: 10,000 times the first number, 100 times the second, and the third.
#[unsafe(no_mangle)]
pub extern "C" fn pim_version() -> u32
    ensures { result ≡ 200 }
{
    200
}
