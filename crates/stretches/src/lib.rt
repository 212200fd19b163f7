// Bytes that pack to themselves: where a code may begin is looked up for 16 places at once, and how long a run is in the same look.
#![tactic(auto)]

ghost use Rattle.std.specs.Prelude.{◌+◌, ◌≤◌, ◌≡◌, not, eqb, length, get_or};
ghost use Rattle.flags.specs.Places.{Flagged};
ghost use Rattle.stretches.specs.Inner.{may_code, Stopped};

// Where a code may begin, and flags for the bytes unlike the next, from there on.
#[derive(Clone, Copy)]
pub struct Stop {
    pub at: usize,
    pub unlike: u64,
}

// 17 bytes of src from i on, stored into dst from o on; the first place among 16 where a code may begin, or 16.
// Between each two of the blocks stands a store: else the compiler makes one of the other, byte by byte.
pub fn copy16(src: &[u8], i: usize, dst: &mut [u8], o: usize) -> Stop
    requires { (i + 20 ≤ length src.now) × (o + 17 ≤ length dst.old) }
    ensures { Stopped src.now i dst.old o result.at result.unlike dst.new }
{
    let block = slices::part16(src, i);
    slices::put16(dst, o, &block);
    let next = slices::part16(src, i + 1);
    let unlike = flags::mask(unlike_next(block, next));
    slices::put16(dst, o + 1, &next);
    let fourth = slices::part16(src, i + 4);
    let m = flags::mask(stops(block, next, fourth));
    if m == 0 {
        return Stop { at: 16, unlike: 0 };
    }
    let k = flags::first(m);
    Stop {
        at: k,
        unlike: flags::after(unlike, k),
    }
}

// Where in a block a code may begin, given the blocks one and four bytes on.
fn stops(block: [u8; 16], next: [u8; 16], fourth: [u8; 16]) -> [bool; 16]
    ensures { Flagged (λ j. may_code (get_or block j 0) (get_or next j 0) (get_or fourth j 0)) result 16 }
{
    let mut c = [false; 16];
    let mut k: usize = 0;
    while k < 16 {
        c[k] = may_code(block[k], next[k], fourth[k]);
        k += 1;
    }
    c
}

// Whether a code may begin at x, y being the next byte and z the fourth after x. In another order of the same tests the
// compiler makes more of it.
fn may_code(x: u8, y: u8, z: u8) -> bool
    ensures { result ≡ may_code x y z }
{
    (x == 237) | ((x == y) & (z == y))
}

// Which bytes of a block are not the next one.
fn unlike_next(block: [u8; 16], next: [u8; 16]) -> [bool; 16]
    ensures { Flagged (λ j. not (eqb (get_or block j 0) (get_or next j 0))) result 16 }
{
    let mut c = [false; 16];
    let mut k: usize = 0;
    while k < 16 {
        c[k] = block[k] != next[k];
        k += 1;
    }
    c
}
