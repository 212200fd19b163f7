// Unpacking. Where ED ED stands is looked up for 64 places at once, and the flags serve for every code among them.
#![tactic(auto)]

ghost use Rattle.std.specs.Prelude.{length};
ghost use Rattle.packed.specs.Packed.{unpacked};
ghost use Rattle.packed.specs.Unpacking.{Unpacks};

use codes::look;
use packed::Unpacked;
use unpack_tail::{refused_part, rest, unpack_rest};

// src unpacked into dst, which is all zero unless the answer is Good. While there is much of both, a look reads 65 bytes and the
// last code in it three more, and it stores 64 and a short run 32 after the first 63.
pub fn unpack(src: &[u8], dst: &mut [u8]) -> Unpacked
    ensures { Unpacks (unpacked src.now) (length dst.old) result dst.new }
{
    let mut i: usize = 0;
    let mut o: usize = 0;
    let mut codes: u64 = 0;
    while i + 68 <= src.len() {
        if dst.len() < o + 96 {
            return unpack_rest(src, i, dst, o);
        }
        codes = look(src, i, dst, o, codes);
        let k = flags::first(codes);
        if k == 64 {
            i += 64;
            o += 64;
        } else {
            let p = i + k;
            let q = o + k;
            let n = slices::wide(src[p + 2]);
            let y = src[p + 3];
            if n == 0 {
                return refused_part(dst, Unpacked::Malformed(p));
            }
            if n <= 32 {
                stores::fill_32(dst, q, y);
                i = p + 4;
                o = q + n;
                codes = flags::after(flags::after(codes, k), 4);
            } else {
                let e = q + n;
                if dst.len() < e {
                    let why = rest(src, p, q);
                    return refused_part(dst, why);
                }
                stores::fill_run(dst, q, n, y);
                i = p + 4;
                o = e;
                codes = flags::after(flags::after(codes, k), 4);
            }
        }
    }
    unpack_rest(src, i, dst, o)
}
