// The version of the C interface (bindings/c/include/codeplug.h, CODEPLUG_VERSION_NUMBER).
ghost use Rattle.std.specs.Prelude.{◌≡◌};
ghost use Rattle.capi.specs.Version.{version_number};

pub const MAJOR: u32 = 3;

pub const MINOR: u32 = 0;

pub const PATCH: u32 = 0;

// One byte for each, the patch lowest.
pub fn codeplug_version() -> u32
    ensures { result ≡ version_number }
{
    MAJOR * 65536 + MINOR * 256 + PATCH
}
