// The first bytes of an SCS file: whose they are, which Spectrum is inside, and whether Memory comes first.
#![tactic(auto)]

ghost use Rattle.std.specs.Prelude.{◌≤◌, ◌≡◌, length, take};
ghost use Rattle.slices.specs.Same.{same};
ghost use Rattle.scs_blocks.specs.ScsIdentity.{sam_snap};
ghost use Rattle.scs_head.specs.ScsHeads.{memory_first, scs_head_of};

use numbers::Refusal;
use pages::Model;

// What the first 15 bytes and the number of the first block say.
#[derive(Clone, Copy)]
pub enum ScsHead {
    Bad(Refusal),
    Spectrum(Model),
}

// The Spectrum inside, or why the file is refused before its blocks are looked at.
pub fn read_scs_head(file: &[u8]) -> ScsHead
    ensures { result ≡ scs_head_of file.now }
{
    if file.len() < 15 {
        return ScsHead::Bad(Refusal::FileShort);
    }
    if has_name(file) {
        let hardware = file[14];
        if hardware == 1 {
            return memory_first(file, Model::K48);
        }
        if hardware == 2 {
            return memory_first(file, Model::K128);
        }
        return ScsHead::Bad(Refusal::ScsHeader);
    }
    ScsHead::Bad(Refusal::ScsHeader)
}

// Whether the file begins with "SamSnap!".
fn has_name(file: &[u8]) -> bool
    requires { 15 ≤ length file.now }
    ensures { result ≡ same (take 8 file.now) sam_snap }
{
    let name = [83u8, 97, 109, 83, 110, 97, 112, 33];
    file[..8] == name[..]
}

fn memory_first(file: &[u8], model: Model) -> ScsHead
    ensures { result ≡ memory_first file.now model }
{
    if file.len() < 16 {
        return ScsHead::Bad(Refusal::ScsMemoryNotFirst);
    }
    if file[15] == 3 {
        return ScsHead::Spectrum(model);
    }
    ScsHead::Bad(Refusal::ScsMemoryNotFirst)
}
