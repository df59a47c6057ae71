// Which versions of tags the library reads.

ghost use Rattle.std.specs.Prelude.{◌≡◌};
ghost use Rattle.tag.specs.Version.{known_version};

// Whether a tag with this version byte is read: its high nibble, the major version, has to be 1.
pub fn is_known(version: u8) -> bool
    ensures { result ≡ known_version version }
{
    version / 16 == 1
}
