// Sixteen flags as a number, and the first one that is set. It knows no format.
#![tactic(auto)]

ghost use Rattle.std.specs.Prelude.{◌≤◌, ◌<◌, ◌/◌, ◌^◌, ◌≡◌, false, ◌∷◌, []};
ghost use Rattle.std.specs.Int.Count.{count_trailing_zeros};
ghost use Rattle.flags.specs.Weight.{weight};

// The flags as a number, the first one lowest. The test for none stands first: the compiler then makes one vector of the flags.
pub fn mask(c: [bool; 16]) -> u64
    ensures { result ≡ weight c }
{
    if any16(c) {
        return mask16(c) as u64;
    }
    0
}

// How many flags come before the first that is set; 64 where none is.
pub fn first(m: u64) -> usize
    ensures { (result ≡ count_trailing_zeros 64 m) × (result ≤ 64) }
{
    u64::trailing_zeros(m) as usize
}

// The flags from number k on.
pub fn after(m: u64, k: usize) -> u64
    requires { k < 64 }
    ensures { result ≡ m / 2 ^ k }
{
    m >> (k as u32)
}

// Whether a flag is set; where it says no, none is.
fn any16(c: [bool; 16]) -> bool
    ensures { result ≡ false → weight c ≡ 0 }
{
    let mut any = false;
    let mut k: usize = 0;
    while k < 16 {
        any = any | c[k];
        k += 1;
    }
    any
}

// The number, four flags at a time from the last.
fn mask16(c: [bool; 16]) -> u32
    ensures { result ≡ weight c }
{
    let mut m: u32 = 0;
    let mut q: usize = 4;
    while 0 < q {
        q -= 1;
        let k = 4 * q;
        m = (m << 4) | four(c[k], c[k + 1], c[k + 2], c[k + 3]);
    }
    m
}

fn four(a: bool, b: bool, c: bool, d: bool) -> u32
    ensures { result ≡ weight (a ∷ b ∷ c ∷ d ∷ []) }
{
    (a as u32) | ((b as u32) << 1) | ((c as u32) << 2) | ((d as u32) << 3)
}
