// What C and Rust call: which archive this is.
ghost use Rattle.std.specs.Prelude.{◌≡◌};
ghost use Rattle.simmerstoat.specs.Version.{version};

// 65536 × major + 256 × minor + patch.
#[unsafe(no_mangle)]
pub extern "C" fn simmerstoat_version() -> u32
    ensures { result ≡ version }
{
    simmerstoat::version::simmerstoat_version()
}
