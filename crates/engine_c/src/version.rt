// The export by which a host compares the archive's version with that of the header that it was compiled with.
ghost use Rattle.std.specs.Prelude.{◌≡◌};
ghost use Rattle.engine.specs.Version.{version};

#[unsafe(no_mangle)]
pub extern "C" fn parvusek_version() -> u32
    ensures { result ≡ version }
{
    engine::version::parvusek_version()
}
