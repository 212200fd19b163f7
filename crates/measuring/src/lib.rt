// How long the packed form is.
#![tactic(auto)]

ghost use Rattle.std.specs.Prelude.{◌≡◌, length};
ghost use Rattle.packed.specs.Packed.{packed};

use runs::run_at;

// The length of src packed.
pub fn packed_len(src: &[u8]) -> usize
    ensures { result ≡ length (packed src.now) }
{
    let mut i: usize = 0;
    let mut len: usize = 0;
    while i < src.len() {
        let n = run_at(src, i);
        if src[i] == 237 {
            if 2 <= n {
                len += 4;
                i += n;
            } else if src.len() <= i + 1 {
                len += 1;
                i += 1;
            } else {
                len += 2;
                i += 2;
            }
        } else if 5 <= n {
            len += 4;
            i += n;
        } else {
            len += n;
            i += n;
        }
    }
    len
}
