// A Type 2 tag as a model that takes one command a call.

ghost use Rattle.std.specs.Prelude.{◌≡◌, ◌/◌, length};
ghost use Rattle.tag.specs.Stores.{tag_after};
ghost use Rattle.tag.specs.PublicContracts.{Took};
ghost use Rattle.type2.specs.Codec.{well_formed};
ghost use Rattle.type2.specs.Type2.{type2};

use crate::{commands, container, read};
use tag::{Address, Refusal};

// Stores what the command says if it is well formed, else nothing, and answers whether it is well formed.
#[tactic(auto, using(tag::proofs::Storing::put_sets), unfolding(crate::specs::Codec::decode))]
// A bool, as `Update::take_command` answers: its clause `Applied` states one.
pub fn take_command(image: &mut [u8], command: &[u8]) -> bool
    ensures is { result ≡ well_formed (length image.old / 4) command.now }
    ensures stored { image.new ≡ tag_after image.old (type2.command image.old command.now) }
{
    let blocks = Address(image.len()).block(container::BLOCK_SIZE);
    let Ok(command) = commands::decode(command, blocks.0) else {
        return false;
    };
    let at = command.block.address(container::BLOCK_SIZE).0;
    image[at..at + container::BLOCK_SIZE].copy_from_slice(&command.bytes);
    true
}

// Takes one command. Gives reading's refusals but 13, then 20; else stores the block that the command names, protected or not.
// Each type has its own: a generic one would put a trait and an `impl` a type in front of these lines.
#[tactic(auto, using(crate::proofs::Modelling::by_test))]
pub fn model(image: &mut [u8], command: &[u8]) -> Result<(), Refusal>
    ensures { Took type2 image.old command.now result image.new }
{
    let mut table = [0; container::LONGEST_IMAGE];
    read::locate(image, &mut table)?;
    if !take_command(image, command) {
        return Err(Refusal::MalformedCommand);
    }
    Ok(())
}
