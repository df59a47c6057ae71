// The list of write commands, laid straight into the caller's buffer. It shuts block 0 unless that is shut, writes the blocks, as many
// to a command as are allowed, and then writes block 0 with its new bytes.

ghost use Rattle.std.specs.Prelude.{◌≡◌, cond, [], ◌∷◌, ◌++◌, ◌+◌, ◌*◌, ◌<◌, ◌≤◌, length, drop};
ghost use Rattle.type3.specs.Codec.{block_list_bytes, opening};
ghost use Rattle.type3_list.specs.Views.Blocks.{Chosen};
ghost use Rattle.type3_list.specs.Views.Listing.{attribute_information_block, attribute_command, message_command, message_commands, shut_command, shut_length};
ghost use Rattle.type3_list.specs.Views.Laid.{laid, laid_length};

use crate::{WriteList, blocks};
use type3::read;
use type3::read::BLOCK_SIZE;
use type3_commands::block_list::ELEMENT;
use type3_commands::commands::{FRONT, PER_BLOCK};
use type3_commands::{block_list, commands};

// Where block 0 has Ln, of three bytes.
const LN: usize = 11;

// Where the command for block 0 has its data.
const ATTRIBUTE_DATA: usize = FRONT + ELEMENT;

// The bytes of the command for block 0.
const ATTRIBUTE_COMMAND: usize = FRONT + PER_BLOCK;

// ---- the parts of a command

// The bytes up to the block count, and the count.
fn put_opening(idm: [u8; 8], count: usize, out: &mut [u8])
    requires { (count < 256) × (13 ≤ length out.old) }
    ensures { out.new ≡ (opening idm ++ (count ∷ [])) ++ drop 13 out.old }
{
    out[..FRONT].copy_from_slice(&commands::opening(idm, count as u8));
}

// The block list. Over bytes, as a list has them; `put` of block_list has any numbers, tested before.
// By index: the library says nothing of a slice after as_chunks_mut.
fn put_block_list(blocks: &[u8], out: &mut [u8])
    requires { 2 * length blocks.now ≤ length out.old }
    ensures { out.new ≡ block_list_bytes blocks.now ++ drop (2 * length blocks.now) out.old }
{
    for (j, block) in blocks.iter().enumerate() {
        out[ELEMENT * j..ELEMENT * (j + 1)].copy_from_slice(&block_list::element(*block));
    }
}

// Block 0 with this WriteFlag and this Ln, and its checksum; all else as the image has it.
// It takes the slice: `attribute_information_block` of the specs takes the whole image.
fn attribute_information_block(image: &[u8], flag: u8, ln: usize) -> [u8; BLOCK_SIZE]
    requires { (16 ≤ length image.now) × (ln < 65536) }
    ensures { result ≡ attribute_information_block image.now flag ln }
{
    let (blocks, _) = image.as_chunks::<BLOCK_SIZE>();
    let mut block = blocks[0];
    block[read::WRITE_FLAG] = flag;
    let [_, high, mid, low] = (ln as u32).to_be_bytes();
    block[LN..read::CHECKSUM].copy_from_slice(&[high, mid, low]);
    let checksum = read::sum(&block[..read::CHECKSUM]).to_be_bytes();
    block[read::CHECKSUM..].copy_from_slice(&checksum);
    block
}

impl WriteList<'_> {
    // How many commands the list has.
    pub fn count(&self) -> usize
        ensures { result ≡ cond self.now.information.busy 0 1 + self.now.turns + 1 }
    {
        usize::from(!self.information.busy) + self.turns + 1
    }

    // How many bytes the list has.
    pub fn length(&self) -> usize
        ensures { result ≡ laid_length self.now }
    {
        let around = ATTRIBUTE_COMMAND * (usize::from(!self.information.busy) + 1);
        around + FRONT * self.turns + PER_BLOCK * self.blocks.len()
    }

    // ---- the commands

    // The command that writes block 0 with this WriteFlag and this Ln.
    fn put_attribute_command(&self, flag: u8, ln: usize, out: &mut [u8])
        requires { (ln < 65536) × (31 ≤ length out.old) }
        ensures { out.new ≡ attribute_command self.now.idm self.now.image.now flag ln ++ drop 31 out.old }
    {
        put_opening(self.idm, 1, out);
        put_block_list(&[0], &mut out[FRONT..]);
        out[ATTRIBUTE_DATA..ATTRIBUTE_DATA + BLOCK_SIZE].copy_from_slice(
            &attribute_information_block(self.image, flag, ln),
        );
    }

    // The command that writes these blocks, which are few enough for one command.
    fn put_command(&self, blocks: &[u8], out: &mut [u8])
        requires { Chosen self.now.message.now blocks.now × (0 < length blocks.now) × (length blocks.now ≤ 8) × (13 + 18 * length blocks.now ≤ length out.old) }
        ensures { out.new ≡ message_command self.now.idm self.now.message.now blocks.now ++ drop (13 + 18 * length blocks.now) out.old }
    {
        put_opening(self.idm, blocks.len(), out);
        put_block_list(blocks, &mut out[FRONT..]);
        blocks::put_blocks(
            self.message,
            blocks,
            &mut out[FRONT + ELEMENT * blocks.len()..],
        );
    }

    // The commands that write the blocks; returns where the next command goes.
    fn put_commands(&self, out: &mut [u8]) -> usize
        requires { 13 * self.now.turns + 18 * length self.now.blocks.now ≤ length out.old }
        ensures next { result ≡ 13 * self.now.turns + 18 * length self.now.blocks.now }
        ensures puts { out.new ≡ message_commands self.now.idm self.now.message.now self.now.width self.now.blocks.now self.now.turns ++ drop (13 * self.now.turns + 18 * length self.now.blocks.now) out.old }
    {
        let mut at = 0;
        for blocks in self.blocks.chunks(self.width) {
            self.put_command(blocks, &mut out[at..]);
            at += FRONT + PER_BLOCK * blocks.len();
        }
        at
    }

    // ---- the list

    // Lays the command that shuts block 0, unless that is shut already, and returns where the next command goes.
    fn put_shut(&self, out: &mut [u8]) -> usize
        requires { shut_length self.now.information.busy ≤ length out.old }
        ensures next { result ≡ shut_length self.now.information.busy }
        ensures puts { out.new ≡ shut_command self.now.idm self.now.image.now self.now.information.ln self.now.information.busy ++ drop (shut_length self.now.information.busy) out.old }
    {
        if self.information.busy {
            return 0;
        }
        self.put_attribute_command(0x0F, self.information.ln, out);
        ATTRIBUTE_COMMAND
    }

    // Lays the list: block 0 with WriteFlag 0Fh and Ln as it was, unless it is shut already; the blocks; block 0 with WriteFlag 00h
    // and the new Ln.
    pub fn put_list(&self, list: &mut [u8])
        requires { laid_length self.now ≤ length list.old }
        ensures { list.new ≡ laid self.now ++ drop (laid_length self.now) list.old }
    {
        let shut = self.put_shut(list);
        let opened = shut + self.put_commands(&mut list[shut..]);
        self.put_attribute_command(0x00, self.message.len(), &mut list[opened..]);
    }
}
