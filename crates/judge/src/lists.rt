// Judges a list's commands, one after the other, on a copy of the tag. Nothing here depends on a type of tag.

ghost use Rattle.std.specs.Prelude.{◌≡◌, ◌≤◌, length, option_copied};
ghost use Rattle.tag.specs.Stores.{tag_after};
ghost use Rattle.tag.specs.TagType.{held};
ghost use Rattle.tag.specs.PublicContracts.{Judged};
ghost use Rattle.tag.specs.Views.Held.{held_before};
ghost use Rattle.judge.specs.Views.Steps.{tested};

use tag::{Fault, Refusal};
use update::commands::Commands;
use update::{Update, reading};

// Gives one command to the tag `work`: 20, 21 or 22, if it is at fault. A well-formed command is stored even if it is.
fn step<U: Update>(
    update: &U,
    old: Option<&[u8]>,
    command: &[u8],
    work: &mut [u8],
    gathered: &mut [u8; reading::GATHERED],
) -> Result<(), Refusal>
    requires { (held_before (option_copied old) ≡ held (U.tag_type update.now) (U.image update.now)) × (length work.old ≡ length (U.image update.now)) }
    ensures is { result ≡ tested (U.tag_type update.now) (U.image update.now) (U.message update.now) work.old ((U.tag_type update.now).command (U.image update.now) command.now) }
    ensures stored { work.new ≡ tag_after work.old ((U.tag_type update.now).command (U.image update.now) command.now) }
{
    if !update.take_command(command, work) {
        return Err(Refusal::MalformedCommand);
    }
    if !update.is_kept(work) {
        return Err(Refusal::ProtectedByte);
    }
    if !reading::is_safe(update, work, old, gathered) {
        return Err(Refusal::Misread);
    }
    Ok(())
}

// Judges the list's commands in order. `work` starts as the tag handed in. A rest shorter than a command counts as the last one.
fn judge_list<U: Update>(
    update: &U,
    old: Option<&[u8]>,
    list: &[u8],
    work: &mut [u8],
    gathered: &mut [u8; reading::GATHERED],
) -> Result<usize, Fault>
    requires { (held_before (option_copied old) ≡ held (U.tag_type update.now) (U.image update.now)) × (work.old ≡ U.image update.now) }
    ensures { Judged (U.tag_type update.now) (U.image update.now) (U.message update.now) list.now result }
{
    let mut count = 0;
    // No `enumerate`: the count is needed after the loop too.
    for command in Commands::new(update, list) {
        step(update, old, command, work, gathered).map_err(|refusal| refusal.at(count))?;
        count += 1;
    }
    if !reading::holds(update, work, gathered) {
        return Err(Refusal::Unfinished.at(count));
    }
    Ok(count)
}

// Judges a list. The type of tag makes `work`, because the longest images differ; its front holds the work copy. The old message is
// gathered in `first` and stays there; each later reading uses `gathered`.
pub(crate) fn judge_update<U: Update>(
    update: &U,
    list: &[u8],
    work: &mut [u8],
) -> Result<usize, Fault>
    requires { length (U.image update.now) ≤ length work.old }
    ensures { Judged (U.tag_type update.now) (U.image update.now) (U.message update.now) list.now result }
{
    let mut first = [0; reading::GATHERED];
    let mut gathered = [0; reading::GATHERED];
    let image = update.image();
    let work = &mut work[..image.len()];
    work.copy_from_slice(image);
    let old = reading::old(update, &mut first);
    judge_list(update, old, list, work, &mut gathered)
}
