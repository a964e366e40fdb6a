// Which version of the surface an archive has, so that a host can compare it with the header that it was compiled with.
ghost use Rattle.std.specs.Prelude.{◌≡◌};
ghost use Rattle.engine.specs.Version.{version};

const MAJOR: u32 = 0;

const MINOR: u32 = 8;

const PATCH: u32 = 0;

pub fn parvusek_version() -> u32
    ensures { result ≡ version }
{
    10_000 * MAJOR + 100 * MINOR + PATCH
}
