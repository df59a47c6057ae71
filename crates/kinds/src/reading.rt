// What a tag holds, for every type. Each function reads the tag, with a gathering buffer from its caller. `is_safe` and `holds`
// require one in which every interrupted message fits.
// Beside the trait, as these answer for any tag and any message: an `Update` exists only for a tag that may be written.

ghost use Rattle.std.specs.Prelude.{◌≡◌, length, option_copied};
ghost use Rattle.tag.specs.PublicContracts.{Read};
ghost use Rattle.tag.specs.Judge.{holds_as, reads_as_one_of};
ghost use Rattle.tag.specs.TagType.{held};
ghost use Rattle.tag.specs.Views.Held.{ReadHeld, held_before};
ghost use Rattle.kinds.specs.Views.Types.{type_of};

use crate::Kind;
use tag::{Refusal, Report, holding, slices};

// The length of a gathering buffer in which every interrupted message fits. Only Type 2 has interrupted messages, and none is
// longer than its image.
pub const GATHERED: usize = type2::container::LONGEST_IMAGE;

// What the tag reads as.
pub fn read(kind: Kind, idm: &[u8; 8], image: &[u8], gathered: &mut [u8]) -> Result<Report, Refusal>
    ensures { Read (type_of kind idm.now).reading image.now gathered.old result gathered.new }
{
    match kind {
        Kind::Type2(_) => type2::read::read(image, gathered),
        Kind::Type3(..) => type3::read::read(image),
        Kind::Type6(..) => type6::read::read(image),
    }
}

// The same as `read` except for the capacity: `is_safe` does not need it, and that of a large Type 2 tag takes long to count.
fn read_again(
    kind: Kind,
    idm: &[u8; 8],
    image: &[u8],
    gathered: &mut [u8],
) -> Result<Report, Refusal>
    ensures { ReadHeld (type_of kind idm.now).reading image.now gathered.old result gathered.new }
{
    match kind {
        Kind::Type2(_) => type2::read::read_held(image, gathered),
        Kind::Type3(..) => type3::read::read(image),
        Kind::Type6(..) => type6::read::read(image),
    }
}

// Does the tag read as none, as the new message, or as the old one, if there was one?
pub fn is_safe(
    kind: Kind,
    idm: &[u8; 8],
    image: &[u8],
    new: &[u8],
    old: Option<&[u8]>,
    gathered: &mut [u8],
) -> bool
    requires { length gathered.old ≡ 1024 }
    ensures { result ≡ reads_as_one_of new.now (held_before (option_copied old.entry)) (held (type_of kind idm.now) image.now) }
{
    let answer = read_again(kind, idm, image, gathered);
    let shown = slices::shown(image, gathered, answer);
    holding::is_safe(answer, shown, new, old)
}

// Does the tag hold just this message?
pub fn holds(kind: Kind, idm: &[u8; 8], image: &[u8], message: &[u8], gathered: &mut [u8]) -> bool
    requires { length gathered.old ≡ 1024 }
    ensures { result ≡ holds_as (held (type_of kind idm.now) image.now) message.now }
{
    let answer = read(kind, idm, image, gathered);
    let shown = slices::shown(image, gathered, answer);
    holding::holds(answer, shown, message)
}
