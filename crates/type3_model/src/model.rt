// A Type 3 tag as a model that takes one command a call.

ghost use Rattle.std.specs.Prelude.{◌≡◌, length};
ghost use Rattle.tag.specs.Stores.{tag_after};
ghost use Rattle.tag.specs.PublicContracts.{Took};
ghost use Rattle.type3.specs.Codec.{command_of};
ghost use Rattle.type3.specs.Type3.{type3};
ghost use Rattle.type3_commands.specs.Views.Framing.{is_command};
ghost use Rattle.type3_model.specs.Views.Model.{decode_for};

use crate::stores;
use tag::{Address, Refusal};
use type3::read;
use type3_commands::commands;

// Stores what the command says and answers true, if the command is well formed for this Nbw and this Nmaxb and blocks 0 to Nmaxb
// lie in the image. Otherwise stores nothing and answers false.
// A bool: the clause Applied states it. IDm, Nbw and Nmaxb are apart, as C and codec3 (demands/specs/Code2.antt) have them.
#[inline]
pub fn take_command(
    image: &mut [u8],
    idm: &[u8; 8],
    command: &[u8],
    nbw: usize,
    nmaxb: usize,
) -> bool
    ensures is { result ≡ is_command (decode_for (length image.old) idm.now nbw nmaxb command.now) }
    ensures stored { image.new ≡ tag_after image.old (command_of (decode_for (length image.old) idm.now nbw nmaxb command.now)) }
{
    if Address(image.len()).block(read::BLOCK_SIZE).0 <= nmaxb {
        return false;
    }
    let Some(listed) = commands::parts(command, idm, nbw, nmaxb) else {
        return false;
    };
    stores::store_blocks(&listed, image);
    true
}

// Reading's refusals, then 20; else the blocks that the command lists are stored, protected or not.
// Each type has its own: a generic one would put a trait and an `impl` a type in front of these lines.
pub fn model(image: &mut [u8], idm: &[u8; 8], command: &[u8]) -> Result<(), Refusal>
    ensures { Took (type3 idm.now) image.old command.now result image.new }
{
    let information = read::attribute_information(image)?;
    if !take_command(image, idm, command, information.nbw, information.nmaxb) {
        return Err(Refusal::MalformedCommand);
    }
    Ok(())
}
