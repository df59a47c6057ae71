// A list's next command: how many bytes it takes, and the tag that it leaves.
// Beside the trait, as these answer for any tag and any message: an `Update` exists only for a tag that may be written.

ghost use Rattle.std.specs.Prelude.{◌≡◌, ◌<◌, length};
ghost use Rattle.tag.specs.Views.Judging.{Piece, Applied};
ghost use Rattle.kinds.specs.Views.Types.{type_of, Attested};

use crate::Kind;

// How many bytes the first command of the list takes.
fn span(kind: Kind, idm: &[u8; 8], image: &[u8], list: &[u8]) -> usize
    requires { Attested kind image.now }
    ensures { result ≡ (type_of kind idm.now).span image.now list.now }
{
    match kind {
        Kind::Type2(_) => type2::commands::LENGTH,
        Kind::Type3(..) => type3_commands::commands::span(list),
        Kind::Type6(size, _) => type6::commands::DATA + size,
    }
}

// How many bytes the command at `at` takes. A rest that is too short for a command counts as the last one.
pub fn piece_size(kind: Kind, idm: &[u8; 8], image: &[u8], list: &[u8], at: usize) -> usize
    requires { Attested kind image.now × (at < length list.now) }
    ensures { Piece (type_of kind idm.now) image.now list.now at result }
{
    let rest = &list[at..];
    span(kind, idm, image, rest).min(rest.len())
}

// Stores a command in the tag `work` and answers whether it is well formed for the tag handed in. If it is not, nothing is stored.
pub fn take_command(
    kind: Kind,
    idm: &[u8; 8],
    image: &[u8],
    command: &[u8],
    work: &mut [u8],
) -> bool
    requires { Attested kind image.now × (length work.old ≡ length image.now) }
    ensures { Applied (type_of kind idm.now) image.now work.old command.now result work.new }
{
    match kind {
        Kind::Type2(_) => type2::model::take_command(work, command),
        Kind::Type3(nbw, nmaxb) => type3_model::model::take_command(work, idm, command, nbw, nmaxb),
        Kind::Type6(size, blocks) => type6::model::take_command(work, command, size, blocks),
    }
}
