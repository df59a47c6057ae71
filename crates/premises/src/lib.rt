// The premises that theorems of crates/demands have about a caller's values hold of every value of the code's types. A slice of
// bytes holds octets, an IDm has eight of them, and a command's arrays have their lengths. The functions do nothing: they exist for
// their contracts.

#![tactic(auto)]

ghost use Rattle.std.specs.Prelude.{◌≡◌, length};
ghost use Rattle.tag.specs.Bytes.{Octets};
ghost use Rattle.demands.specs.Code2.{codec2, codec3, codec6};

// The elements of a slice of bytes are octets.
pub fn octets(bytes: &[u8])
    ensures { Octets bytes.now }
{}

// The IDm that a caller of Type 3 states has eight bytes.
pub fn eight(idm: &[u8; 8])
    ensures { (length idm.now ≡ 8) × Octets idm.now }
{
    octets(idm);
}

// The arrays of a command have their lengths. Each type has its own function: their commands have different arrays.
pub fn whole_type2(command: type2::Command, blocks: usize)
    ensures { (codec2 blocks).Whole command }
{}

pub fn whole_type3(command: type3_commands::Command, idm: &[u8; 8], nbw: usize, nmaxb: usize)
    ensures { (codec3 idm.now nbw nmaxb).Whole command }
{}

pub fn whole_type6(command: type6::Command, size: usize, blocks: usize)
    ensures { (codec6 size blocks).Whole command }
{}
