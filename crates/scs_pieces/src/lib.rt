// The pieces of the CPU and Ports blocks that are written for a machine.
#![tactic(auto)]

ghost use Rattle.std.specs.Prelude.{◌≡◌};
ghost use Rattle.slices.specs.Bytes.{bit_of};
ghost use Rattle.scs_pieces.specs.ScsPieces.{high_first_pairs, low_first_pairs, cpu_settings, ports_front};

use spectrum::{Machine, Switches};

// AF BC DE HL and the dashed ones.
pub fn high_first_pairs(p: [u16; 12]) -> [u8; 16]
    ensures { result ≡ high_first_pairs p }
{
    let af = p[0];
    let bc = p[1];
    let de = p[2];
    let hl = p[3];
    let af2 = p[4];
    let bc2 = p[5];
    let de2 = p[6];
    let hl2 = p[7];
    [
        (af / 256 % 256) as u8,
        (af % 256) as u8,
        (bc / 256 % 256) as u8,
        (bc % 256) as u8,
        (de / 256 % 256) as u8,
        (de % 256) as u8,
        (hl / 256 % 256) as u8,
        (hl % 256) as u8,
        (af2 / 256 % 256) as u8,
        (af2 % 256) as u8,
        (bc2 / 256 % 256) as u8,
        (bc2 % 256) as u8,
        (de2 / 256 % 256) as u8,
        (de2 % 256) as u8,
        (hl2 / 256 % 256) as u8,
        (hl2 % 256) as u8,
    ]
}

// IX IY PC SP.
pub fn low_first_pairs(p: [u16; 12]) -> [u8; 8]
    ensures { result ≡ low_first_pairs p }
{
    let ix = p[8];
    let iy = p[9];
    let sp = p[10];
    let pc = p[11];
    [
        (ix % 256) as u8,
        (ix / 256 % 256) as u8,
        (iy % 256) as u8,
        (iy / 256 % 256) as u8,
        (pc % 256) as u8,
        (pc / 256 % 256) as u8,
        (sp % 256) as u8,
        (sp / 256 % 256) as u8,
    ]
}

fn iff_bit(b: bool) -> u8
    ensures { result ≡ bit_of b }
{
    if b { 1 } else { 0 }
}

// I R, interrupt mode, IFFs, and zeros for the clock numbers.
pub fn cpu_settings(i: u8, r: u8, s: Switches) -> [u8; 10]
    ensures { result ≡ cpu_settings i r s }
{
    [
        i,
        r,
        s.im,
        iff_bit(s.iff1) % 2 + 2 * (iff_bit(s.iff2) % 2),
        0,
        0,
        0,
        0,
        0,
        0,
    ]
}

// Border and both last OUTs.
pub fn ports_front(m: Machine) -> [u8; 3]
    ensures { result ≡ ports_front m }
{
    let switches = m.switches;
    [switches.border, m.out7ffd, m.outfffd % 16]
}
