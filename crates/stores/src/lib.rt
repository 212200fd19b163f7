// Bytes and runs stored from a place on. It knows no format.
#![tactic(auto)]

ghost use Rattle.std.specs.Prelude.{◌+◌, ◌≤◌, ◌<◌, ◌≡◌, ◌∷◌, [], length, replicate};
ghost use Rattle.slices.specs.Put.{put};

// One byte at o.
pub fn put_one(dst: &mut [u8], o: usize, v: u8)
    requires { o < length dst.old }
    ensures { dst.new ≡ put dst.old o (v ∷ []) }
{
    dst[o] = v;
}

// Two bytes from o on.
pub fn put_two(dst: &mut [u8], o: usize, v: u8, w: u8)
    requires { o + 2 ≤ length dst.old }
    ensures { dst.new ≡ put dst.old o (v ∷ w ∷ []) }
{
    dst[o] = v;
    dst[o + 1] = w;
}

// Four times v from o on.
pub fn put_four(dst: &mut [u8], o: usize, v: u8)
    requires { o + 4 ≤ length dst.old }
    ensures { dst.new ≡ put dst.old o (replicate 4 v) }
{
    dst[o] = v;
    dst[o + 1] = v;
    dst[o + 2] = v;
    dst[o + 3] = v;
}

// 32 times v from o on.
pub fn fill_32(dst: &mut [u8], o: usize, v: u8)
    requires { o + 32 ≤ length dst.old }
    ensures { dst.new ≡ put dst.old o (replicate 32 v) }
{
    let f = o + 32;
    slices::fill(&mut dst[o..f], v);
}

// n times v from o on.
pub fn fill_run(dst: &mut [u8], o: usize, n: usize, v: u8)
    requires { o + n ≤ length dst.old }
    ensures { dst.new ≡ put dst.old o (replicate n v) }
{
    let e = o + n;
    slices::fill(&mut dst[o..e], v);
}
