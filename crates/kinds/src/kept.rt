// Whether a tag keeps its protected bytes, for every type.
// Beside the trait, as this answers for any tag and any message: an `Update` exists only for a tag that may be written.

ghost use Rattle.std.specs.Prelude.{◌≡◌, length};
ghost use Rattle.tag.specs.Judge.{keeps, task};
ghost use Rattle.kinds.specs.Views.Types.{type_of, Attested, Protects};

use crate::Kind;

// Does the tag `work` have the bytes of the tag handed in at each address that writing the message does not set? Only Type 2 uses
// the skip table.
pub fn is_kept(
    kind: Kind,
    idm: &[u8; 8],
    image: &[u8],
    message: &[u8],
    table: &[u16],
    work: &[u8],
) -> bool
    requires { Attested kind image.now × Protects kind image.now message.now table.now × (length work.now ≡ length image.now) }
    ensures { result ≡ keeps (task (type_of kind idm.now) image.now message.now) work.now }
{
    match kind {
        Kind::Type2(extent) => tlv_tag::kept::is_kept(image, work, table, extent),
        Kind::Type3(..) => type3::kept::is_kept(image, work, message.len()),
        Kind::Type6(size, _) => type6::kept::is_kept(image, work, size, message.len()),
    }
}
