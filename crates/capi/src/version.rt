// The archive's version, so that a host sees whether its header belongs to it.
ghost use Rattle.std.specs.Prelude.{◌≡◌};
ghost use Rattle.capi.specs.Version.{version};

// major * 1,000,000 + minor * 1,000 + patch
pub const VERSION: u32 = 4_000;

#[unsafe(no_mangle)]
pub extern "C" fn lateenbael_version() -> u32
    ensures { result ≡ version }
{
    VERSION
}
