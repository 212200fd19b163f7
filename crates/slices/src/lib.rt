// What every layer uses and knows no format: lent bytes filled, cleared and put; words, the lesser, both of two.
#![tactic(auto)]

ghost use Rattle.std.specs.Prelude.{◌+◌, ◌-◌, ◌*◌, ◌≤◌, ◌<◌, min, ◌≡◌, ◌++◌, length, take, drop, replicate};
ghost use Rattle.slices.specs.Choose.{both};
ghost use Rattle.slices.specs.Put.{put};

// Every byte of dst becomes v.
pub fn fill(dst: &mut [u8], v: u8)
    ensures { dst.new ≡ replicate (length dst.old) v }
{
    let mut i = 0;
    while i < dst.len() {
        dst[i] = v;
        i += 1;
    }
}

// Zeros from n on; nothing changes where n is past the end.
pub fn clear_from(dst: &mut [u8], n: usize)
    ensures { dst.new ≡ take n dst.old ++ replicate (length dst.old - n) 0 }
{
    if dst.len() <= n {
        return;
    }
    fill(&mut dst[n..], 0);
}

// src written over dst from at on.
pub fn put_at(dst: &mut [u8], at: usize, src: &[u8])
    requires { at + length src.now ≤ length dst.old }
    ensures { dst.new ≡ put dst.old at src.now }
{
    dst[at..at + src.len()].copy_from_slice(src);
}

// src written over dst from at on, where 16 bytes are.
pub fn put16(dst: &mut [u8], at: usize, src: &[u8; 16])
    requires { at + 16 ≤ length dst.old }
    ensures { dst.new ≡ put dst.old at src.now }
{
    put_at(dst, at, src);
}

// The 16 bytes of s from `from` on.
pub fn part16(s: &[u8], from: usize) -> [u8; 16]
    requires { from + 16 ≤ length s.now }
    ensures { result ≡ take 16 (drop from s.now) }
{
    let mut t = [0u8; 16];
    t.copy_from_slice(&s[from..from + 16]);
    t
}

// The lesser of two.
pub fn least(a: usize, b: usize) -> usize
    ensures { result ≡ min a b }
{
    if a < b { a } else { b }
}

// A byte as an index or a count.
pub fn wide(x: u8) -> usize
    ensures { (result ≡ x) × (result < 256) }
{
    x as usize
}

// A byte as a word.
pub fn byte_word(x: u8) -> u16
    ensures { result ≡ x }
{
    x as u16
}

pub fn and(a: bool, b: bool) -> bool
    ensures { result ≡ both a b }
{
    if a { b } else { false }
}

// The low byte first.
pub fn word_of(low: u8, high: u8) -> u16
    ensures { result ≡ low + 256 * high }
{
    (low as u16) + 256 * (high as u16)
}
