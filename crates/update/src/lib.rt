// A tag that reads and a message that may be written to it, for every type of tag: what a type defines, what the code does with it,
// and the laws that each type proves. Code over the trait need not distinguish the types, and each type gets code of its own.

#![tactic(auto)]

pub mod commands;
pub mod reading;

ghost use Rattle.std.specs.Prelude.{◌≡◌, true, ℕ, List, ◌<◌, ◌≤◌, length};
ghost use Rattle.tag.specs.Reading.{Report, reads};
ghost use Rattle.tag.specs.TagType.{TagType};
ghost use Rattle.tag.specs.Judge.{keeps, task};
ghost use Rattle.tag.specs.Cuts.{Ready};
ghost use Rattle.tag.specs.PublicContracts.{Read};
ghost use Rattle.tag.specs.Views.Judging.{Applied};
ghost use Rattle.tag.specs.Views.Held.{ReadHeld};
ghost use Rattle.tag.proofs.Laws.{Laws};

use tag::{Refusal, Report};

// A tag handed in, and a message that writing does not refuse for it.
pub trait Update {
    // The definition of the type of tag, with what else the caller states, such as the IDm.
    ghost tag_type: { Self → TagType };

    ghost image: { Self → List ℕ };

    ghost message: { Self → List ℕ };

    fn image(&self) -> &[u8]
        ensures { result.now ≡ image self.now };

    fn message(&self) -> &[u8]
        ensures { result.now ≡ message self.now };

    // How many bytes the first command of the list takes.
    fn span(&self, list: &[u8]) -> usize
        ensures { result ≡ (tag_type self.now).span (image self.now) list.now };

    // Stores a command in the tag `work` and answers whether it is well formed for the tag handed in. If it is not, nothing is stored.
    // A bool, where false is refusal 20: the clause `Applied` states one. `work` is a slice of its own, because it is written after each
    // command, and the tag handed in is not.
    fn take_command(&self, command: &[u8], work: &mut [u8]) -> bool
        requires { length work.old ≡ length (image self.now) }
        ensures { Applied (tag_type self.now) (image self.now) work.old command.now result work.new };

    // Does the tag `work` have the bytes of the tag handed in at each address that writing the message does not set?
    fn is_kept(&self, work: &[u8]) -> bool
        requires { length work.now ≡ length (image self.now) }
        ensures { result ≡ keeps (task (tag_type self.now) (image self.now) (message self.now)) work.now };

    // What the tag `work` reads as.
    fn read(&self, work: &[u8], gathered: &mut [u8]) -> Result<Report, Refusal>
        ensures { Read (tag_type self.now).reading work.now gathered.old result gathered.new };

    // The same as `read` except for the capacity. A type whose capacity takes long to count has a function of its own.
    fn read_again(&self, work: &[u8], gathered: &mut [u8]) -> Result<Report, Refusal>
        ensures { ReadHeld (tag_type self.now).reading work.now gathered.old result gathered.new }
    {
        self.read(work, gathered)
    }

    ghost laws: { (u : Self) → Laws (tag_type u) };

    // Writing the message is not refused.
    ghost ready: { (u : Self) → Ready (tag_type u) (image u) (message u) };

    // A command of a list takes at least one byte.
    ghost some_bytes: { (u : Self) (list : List ℕ) → 0 < (tag_type u).span (image u) list };

    // A gathering buffer of 1,024 bytes takes every interrupted message.
    ghost fits: { (u : Self) (i : List ℕ) (p : Report) → (tag_type u).reading i ≡ reads p → p.interrupted ≡ true → length p.bytes ≤ 1024 };
}
