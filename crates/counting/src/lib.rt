// What unpacking into a part of a length would answer, without the part: packed data are counted, and nothing is written.
#![tactic(auto)]

ghost use Rattle.std.specs.Prelude.{◌<◌, ◌≡◌};
ghost use Rattle.packed.specs.Packed.{unpacked};
ghost use Rattle.packed.specs.Unpacking.{answer_of};
ghost use Rattle.packed.specs.Inner.{over};

use codes::escapes_at;
use packed::Unpacked;
use unpack_tail::{rest, up_to};

// The answer of `unpack` for src and a part of `due` bytes.
pub fn would_unpack(src: &[u8], due: usize) -> Unpacked
    requires { due < 65536 }
    ensures { result ≡ answer_of (unpacked src.now) due }
{
    match count_data(src) {
        Unpacked::Good => Unpacked::Good,
        Unpacked::Malformed(i) => Unpacked::Malformed(i),
        Unpacked::WrongLength(n) => {
            if n == due {
                return Unpacked::Good;
            }
            Unpacked::WrongLength(n)
        }
    }
}

// How many bytes src stands for, or its first bad code. 16 places are looked at together, and the last code among them is read whole.
fn count_data(src: &[u8]) -> Unpacked
    ensures { result ≡ over 0 (unpacked src.now) }
{
    let mut i: usize = 0;
    let mut n: usize = 0;
    while i + 20 <= src.len() {
        let k = flags::first(escapes_at(src, i));
        if k == 64 {
            n = up_to(n + 16);
            i += 16;
        } else {
            let p = i + k;
            let run = slices::wide(src[p + 2]);
            if run == 0 {
                return Unpacked::Malformed(p);
            }
            n = up_to(n + (k + run));
            i = p + 4;
        }
    }
    rest(src, i, n)
}
