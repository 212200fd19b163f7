// Packing near an end, code by code.
#![tactic(auto)]

ghost use Rattle.std.specs.Prelude.{◌+◌, ◌≤◌, ◌<◌, ◌∷◌, [], ◌++◌, ◌≡◌, length, take, drop, replicate, eqb};
ghost use Rattle.slices.specs.Choose.{choose};
ghost use Rattle.slices.specs.Put.{put};
ghost use Rattle.packed.specs.Packed.{ED, packed};
ghost use Rattle.packed.specs.Packing.{Packs};
ghost use Rattle.packed.specs.declared.Fit.TheVariants.{TooShort};

use packed::Fit;
use runs::run_at;

// The rest of src packed, from `from` on, into dst from `at` on, after what stands before `at`, and zeros after it; dst is all zero
// where it is too short.
pub fn pack_rest(src: &[u8], from: usize, dst: &mut [u8], at: usize) -> Fit
    requires { (from ≤ length src.now) × (at ≤ length dst.old) }
    ensures { Packs (take at dst.old ++ packed (drop from src.now)) (length dst.old) result dst.new }
{
    let mut i = from;
    let mut o = at;
    while i < src.len() {
        let v = src[i];
        let n = run_at(src, i);
        if code_from(v) <= n {
            if dst.len() < o + 4 {
                return too_short(dst);
            }
            put_run(dst, o, n, v);
            o += 4;
            i += n;
        } else if v != 237 {
            let e = o + n;
            if dst.len() < e {
                return too_short(dst);
            }
            stores::fill_run(dst, o, n, v);
            o = e;
            i += n;
        } else if i + 1 < src.len() {
            if dst.len() < o + 2 {
                return too_short(dst);
            }
            stores::put_two(dst, o, v, src[i + 1]);
            o += 2;
            i += 2;
        } else {
            if dst.len() <= o {
                return too_short(dst);
            }
            stores::put_one(dst, o, v);
            o += 1;
            i += 1;
        }
    }
    slices::clear_from(dst, o);
    Fit::Length(o)
}

// From how many on a run of v has a code.
fn code_from(v: u8) -> usize
    ensures { result ≡ choose (eqb v ED) 2 5 }
{
    if v == 237 { 2 } else { 5 }
}

fn too_short(dst: &mut [u8]) -> Fit
    ensures { (result ≡ TooShort) × (dst.new ≡ replicate (length dst.old) 0) }
{
    slices::fill(dst, 0);
    Fit::TooShort
}

// The code of a run.
pub fn put_run(dst: &mut [u8], o: usize, n: usize, v: u8)
    requires { (o + 4 ≤ length dst.old) × (n < 256) }
    ensures { dst.new ≡ put dst.old o (237 ∷ 237 ∷ n ∷ v ∷ []) }
{
    dst[o] = 237;
    dst[o + 1] = 237;
    dst[o + 2] = n as u8;
    dst[o + 3] = v;
}
