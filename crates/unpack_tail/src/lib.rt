// Unpacking near an end, byte by byte.
#![tactic(auto)]

ghost use Rattle.std.specs.Prelude.{◌≤◌, ◌≡◌, [], length, take, drop, replicate};
ghost use Rattle.packed.specs.Packed.{before, unpacked};
ghost use Rattle.packed.specs.Unpacking.{length_counted, Unpacks};
ghost use Rattle.packed.specs.Inner.{over};

use codes::escape_at;
use packed::Unpacked;

// The rest of src unpacked, from `from` on, into dst from `at` on, after what stands before `at`; dst is all zero unless the answer
// is Good.
pub fn unpack_rest(src: &[u8], from: usize, dst: &mut [u8], at: usize) -> Unpacked
    requires { (from ≤ length src.now) × (at ≤ length dst.old) }
    ensures { Unpacks (before from (take at dst.old) (unpacked (drop from src.now))) (length dst.old) result dst.new }
{
    let mut i = from;
    let mut o = at;
    while i < src.len() {
        if escape_at(src, i) {
            if src.len() < i + 4 {
                return refused_part(dst, Unpacked::Malformed(i));
            }
            let count = slices::wide(src[i + 2]);
            if count == 0 {
                return refused_part(dst, Unpacked::Malformed(i));
            }
            let e = o + count;
            if dst.len() < e {
                let why = rest(src, i, o);
                return refused_part(dst, why);
            }
            stores::fill_run(dst, o, count, src[i + 3]);
            o = e;
            i += 4;
        } else {
            if dst.len() <= o {
                let why = rest(src, i, o);
                return refused_part(dst, why);
            }
            stores::put_one(dst, o, src[i]);
            o += 1;
            i += 1;
        }
    }
    if o == dst.len() {
        return Unpacked::Good;
    }
    refused_part(dst, Unpacked::WrongLength(up_to(o)))
}

// What is refused leaves dst all zero.
pub fn refused_part(dst: &mut [u8], why: Unpacked) -> Unpacked
    ensures { (result ≡ why) × (dst.new ≡ replicate (length dst.old) 0) }
{
    slices::fill(dst, 0);
    why
}

// A length, or 65,536 where it is longer.
pub fn up_to(n: usize) -> usize
    ensures { result ≡ length_counted n }
{
    if n < 65536 { n } else { 65536 }
}

// The answer where o bytes are counted and the bytes of src from `from` on are left, without a place to write: the first bad code among
// them still decides.
pub fn rest(src: &[u8], from: usize, o: usize) -> Unpacked
    requires { from ≤ length src.now }
    ensures { result ≡ over o (before from [] (unpacked (drop from src.now))) }
{
    let mut i = from;
    let mut n = up_to(o);
    while i < src.len() {
        if escape_at(src, i) {
            if src.len() < i + 4 {
                return Unpacked::Malformed(i);
            }
            let run = slices::wide(src[i + 2]);
            if run == 0 {
                return Unpacked::Malformed(i);
            }
            n = up_to(n + run);
            i += 4;
        } else {
            n = up_to(n + 1);
            i += 1;
        }
    }
    Unpacked::WrongLength(n)
}
