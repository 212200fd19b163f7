// Where ED ED stands in packed data: for 64 places at once and for 16, with the flags of crate flags, and for one.
#![tactic(auto)]

ghost use Rattle.std.specs.Prelude.{◌+◌, ◌≤◌, ◌<◌, ◌≡◌, length, get_or};
ghost use Rattle.flags.specs.Places.{Flagged, Seen, Ahead};
ghost use Rattle.packed.specs.Packed.{escape};
ghost use Rattle.codes.specs.Inner.{escape_at, Looked, Copied16};

// Flags for ED ED from i on: `seen`, while the next is near, or 64 new ones. 16 or 64 bytes of src are stored into dst from o
// on, those before the next ED ED among them.
pub fn look(src: &[u8], i: usize, dst: &mut [u8], o: usize, seen: u64) -> u64
    requires { (i + 65 ≤ length src.now) × ((o + 64 ≤ length dst.old) × Ahead (escape_at src.now) i seen) }
    ensures { Looked src.now i dst.old o seen result dst.new }
{
    if flags::first(seen) < 16 {
        slices::put16(dst, o, &slices::part16(src, i));
        return seen;
    }
    let mut m: u64 = 0;
    let mut q: usize = 0;
    while q < 4 {
        let k = 16 * q;
        m = m | (codes16(src, i + k, dst, o + k) << (k as u32));
        q += 1;
    }
    m
}

// 16 bytes of src from i on, stored into dst from o on; flags for ED ED among them.
fn codes16(src: &[u8], i: usize, dst: &mut [u8], o: usize) -> u64
    requires { (i + 17 ≤ length src.now) × (o + 16 ≤ length dst.old) }
    ensures { Copied16 src.now i dst.old o result dst.new }
{
    let block = slices::part16(src, i);
    let next = slices::part16(src, i + 1);
    slices::put16(dst, o, &block);
    flags::mask(escapes(block, next))
}

// Flags for ED ED in 16 bytes of src from i on.
pub fn escapes_at(src: &[u8], i: usize) -> u64
    requires { i + 17 ≤ length src.now }
    ensures { Seen (escape_at src.now) i 16 result }
{
    let block = slices::part16(src, i);
    let next = slices::part16(src, i + 1);
    flags::mask(escapes(block, next))
}

// Where ED ED stands in a block, given the block one byte on.
fn escapes(block: [u8; 16], next: [u8; 16]) -> [bool; 16]
    ensures { Flagged (λ j. escape (get_or block j 0) (get_or next j 0)) result 16 }
{
    let mut c = [false; 16];
    let mut k: usize = 0;
    while k < 16 {
        c[k] = is_escape(block[k], next[k]);
        k += 1;
    }
    c
}

fn is_escape(a: u8, b: u8) -> bool
    ensures { result ≡ escape a b }
{
    (a == 237) & (b == 237)
}

// Whether ED ED stands at i.
pub fn escape_at(src: &[u8], i: usize) -> bool
    requires { i < length src.now }
    ensures { result ≡ escape_at src.now i }
{
    if src[i] == 237 {
        if i + 1 < src.len() {
            return src[i + 1] == 237;
        }
    }
    false
}
