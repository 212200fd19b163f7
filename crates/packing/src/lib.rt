// Packing. Up to where a code may begin 16 bytes are stored at a time.
#![tactic(auto)]

ghost use Rattle.std.specs.Prelude.{length};
ghost use Rattle.packed.specs.Packed.{packed};
ghost use Rattle.packed.specs.Packing.{Packs};

use pack_tail::{pack_rest, put_run};
use packed::Fit;
use runs::run_from;
use stretches::copy16;

// src packed into dst, with zeros after it; all zero where dst is too short. While there is much of both, 16 bytes at a time are
// stored up to where a code may begin, seen by 4 bytes more, and 4 bytes for the code.
pub fn pack(src: &[u8], dst: &mut [u8]) -> Fit
    ensures { Packs (packed src.now) (length dst.old) result dst.new }
{
    let mut i: usize = 0;
    let mut o: usize = 0;
    while i + 20 <= src.len() {
        if dst.len() < o + 20 {
            break;
        }
        let stop = copy16(src, i, dst, o);
        let k = stop.at;
        if k == 16 {
            i += 16;
            o += 16;
        } else {
            let p = i + k;
            let q = o + k;
            let v = src[p];
            let n = run_from(src, p, stop.unlike);
            if v == 237 {
                if 2 <= n {
                    put_run(dst, q, n, v);
                    i = p + n;
                    o = q + 4;
                } else {
                    stores::put_two(dst, q, v, src[p + 1]);
                    i = p + 2;
                    o = q + 2;
                }
            } else if 5 <= n {
                put_run(dst, q, n, v);
                i = p + n;
                o = q + 4;
            } else {
                stores::put_four(dst, q, v);
                i = p + n;
                o = q + n;
            }
        }
    }
    pack_rest(src, i, dst, o)
}
