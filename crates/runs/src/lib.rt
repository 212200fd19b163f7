// How long a run is.
#![tactic(auto)]

ghost use Rattle.std.specs.Prelude.{◌<◌, not, eqb, length, get_or};
ghost use Rattle.flags.specs.Places.{Flagged, Ahead};
ghost use Rattle.runs.specs.Inner.{RunLeft, unlike_at};

// What is left of the run at i, at most 255; `unlike` flags, of some places from i on, those unlike the next.
pub fn run_from(src: &[u8], i: usize, unlike: u64) -> usize
    requires { (i < length src.now) × Ahead (unlike_at src.now) i unlike }
    ensures { RunLeft src.now i result }
{
    let k = flags::first(unlike);
    if k == 64 {
        return run_at(src, i);
    }
    k + 1
}

// What is left of the run at i, at most 255.
pub fn run_at(src: &[u8], i: usize) -> usize
    requires { i < length src.now }
    ensures { RunLeft src.now i result }
{
    let v = src[i];
    let mut q: usize = 0;
    while q < 16 {
        let n = 16 * q;
        let p = i + n;
        if src.len() < p + 16 {
            return run_bytes(src, i);
        }
        let other = flags::mask(others(slices::part16(src, p), v));
        if other != 0 {
            return n + flags::first(other);
        }
        q += 1;
    }
    255
}

// Which bytes of a block are not v.
fn others(block: [u8; 16], v: u8) -> [bool; 16]
    ensures { Flagged (λ j. not (eqb (get_or block j 0) v)) result 16 }
{
    let mut c = [false; 16];
    let mut k: usize = 0;
    while k < 16 {
        c[k] = block[k] != v;
        k += 1;
    }
    c
}

// The same as run_at, byte by byte.
fn run_bytes(src: &[u8], i: usize) -> usize
    requires { i < length src.now }
    ensures { RunLeft src.now i result }
{
    let v = src[i];
    let mut n: usize = 1;
    while n < 255 {
        if src.len() <= i + n {
            return n;
        }
        if src[i + n] != v {
            return n;
        }
        n += 1;
    }
    n
}
