// What a tag holds, for every type. Each function reads the tag, with a gathering buffer in which every interrupted message fits.

ghost use Rattle.std.specs.Prelude.{◌≡◌, option_copied};
ghost use Rattle.tag.specs.Judge.{holds_as, reads_as_one_of};
ghost use Rattle.tag.specs.TagType.{held};
ghost use Rattle.tag.specs.Views.Held.{held_before};

use crate::Update;
use tag::{holding, slices};

// The length of a gathering buffer in which every interrupted message fits.
pub const GATHERED: usize = 1024;

// The message that the tag handed in holds, if it holds one.
pub fn old<'a, U: Update>(update: &'a U, gathered: &'a mut [u8; GATHERED]) -> Option<&'a [u8]>
    ensures { held_before (option_copied result) ≡ held (U.tag_type update.now) (U.image update.now) }
{
    let image = update.image();
    let answer = update.read(image, gathered);
    let shown = slices::shown(image, gathered, answer);
    holding::is_message(answer).then_some(shown)
}

// Does the tag `work` read as none, as the new message, or as the old one, if there was one?
pub fn is_safe<U: Update>(
    update: &U,
    work: &[u8],
    old: Option<&[u8]>,
    gathered: &mut [u8; GATHERED],
) -> bool
    ensures { result ≡ reads_as_one_of (U.message update.now) (held_before (option_copied old.entry)) (held (U.tag_type update.now) work.now) }
{
    let answer = update.read_again(work, gathered);
    let shown = slices::shown(work, gathered, answer);
    holding::is_safe(answer, shown, update.message(), old)
}

// Does the tag `work` hold just the new message?
pub fn holds<U: Update>(update: &U, work: &[u8], gathered: &mut [u8; GATHERED]) -> bool
    ensures { result ≡ holds_as (held (U.tag_type update.now) work.now) (U.message update.now) }
{
    let answer = update.read(work, gathered);
    let shown = slices::shown(work, gathered, answer);
    holding::holds(answer, shown, update.message())
}
