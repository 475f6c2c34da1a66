// The version of the C interface (bindings/c/include/codeplug.h, CODEPLUG_VERSION_NUMBER).
ghost use Rattle.std.specs.Prelude.{◌≡◌};
ghost use Rattle.capi.specs.Version.{version_number};

// One byte for each, the patch lowest.
#[unsafe(no_mangle)]
pub extern "C" fn codeplug_version() -> u32
    ensures { result ≡ version_number }
{
    capi::version::codeplug_version()
}
