// A Type 6 tag as a model that takes one command a call.

ghost use Rattle.std.specs.Prelude.{◌≡◌, ◌*◌, ◌≤◌, length};
ghost use Rattle.tag.specs.Stores.{tag_after};
ghost use Rattle.tag.specs.PublicContracts.{Took};
ghost use Rattle.type6.specs.Codec.{well_formed};
ghost use Rattle.type6.specs.Type6.{command_by, type6};

use crate::{commands, container};
use tag::{Block, Refusal, slices};

// Stores what the command says if it is well formed, else nothing, and answers whether it is well formed.
// A bool: the clause Applied states it.
// Size and blocks are apart, as C and codec6 (demands/specs/Code2.antt) have them.
pub fn take_command(image: &mut [u8], command: &[u8], size: usize, blocks: usize) -> bool
    requires { size * blocks ≤ length image.old }
    ensures is { result ≡ well_formed size blocks command.now }
    ensures stored { image.new ≡ tag_after image.old (command_by size blocks command.now) }
{
    if !commands::is_command(command, size, blocks) {
        return false;
    }
    let at = Block(usize::from(command[2])).address(size).0;
    slices::store(&command[commands::DATA..], at, image);
    true
}

// Takes one command. Gives reading's refusals, then 20; else stores the block that the command names, protected or not.
// Each type has its own: a generic one would put a trait and an `impl` a type in front of these lines.
#[tactic(auto, using(crate::proofs::Modelling::by_test))]
pub fn model(image: &mut [u8], command: &[u8]) -> Result<(), Refusal>
    ensures { Took type6 image.old command.now result image.new }
{
    let container = container::read_container(image)?;
    if !take_command(image, command, container.size, container.blocks) {
        return Err(Refusal::MalformedCommand);
    }
    Ok(())
}
