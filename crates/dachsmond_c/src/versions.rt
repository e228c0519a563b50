// The version of the library, for C.
ghost use Rattle.std.specs.Prelude.{◌≡◌};

// 65,536 times the first number of the version, and 256 times the second: the header's DACHSMOND_VERSION.
#[unsafe(no_mangle)]
pub extern "C" fn dachsmond_version() -> u32
    ensures { result ≡ 262400 }
{
    dachsmond::versions::dachsmond_version()
}
