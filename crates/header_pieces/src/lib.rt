// The pieces of the 86 header bytes of a machine.
#![tactic(auto)]

ghost use Rattle.std.specs.Prelude.{◌≡◌};
ghost use Rattle.slices.specs.Bytes.{bit_of};
ghost use Rattle.header_pieces.specs.Pieces.{first_registers, other_registers, video_bits, switch_bytes, mode_byte, chip_bit, port_bytes, counter_bytes};

use pages::Model;
use spectrum::{Attachment, Machine, Switches, Video};

pub fn first_registers(p: [u16; 12], i: u8, r: u8, border: u8) -> [u8; 13]
    ensures { result ≡ first_registers p i r border }
{
    let af = p[0];
    let bc = p[1];
    let hl = p[3];
    let sp = p[10];
    [
        (af / 256 % 256) as u8,
        (af % 256) as u8,
        (bc % 256) as u8,
        (bc / 256 % 256) as u8,
        (hl % 256) as u8,
        (hl / 256 % 256) as u8,
        0,
        0,
        (sp % 256) as u8,
        (sp / 256 % 256) as u8,
        i,
        r % 128,
        r / 128 + 2 * (border % 8),
    ]
}

pub fn other_registers(p: [u16; 12]) -> [u8; 14]
    ensures { result ≡ other_registers p }
{
    let de = p[2];
    let af2 = p[4];
    let bc2 = p[5];
    let de2 = p[6];
    let hl2 = p[7];
    let ix = p[8];
    let iy = p[9];
    [
        (de % 256) as u8,
        (de / 256 % 256) as u8,
        (bc2 % 256) as u8,
        (bc2 / 256 % 256) as u8,
        (de2 % 256) as u8,
        (de2 / 256 % 256) as u8,
        (hl2 % 256) as u8,
        (hl2 / 256 % 256) as u8,
        (af2 / 256 % 256) as u8,
        (af2 % 256) as u8,
        (iy % 256) as u8,
        (iy / 256 % 256) as u8,
        (ix % 256) as u8,
        (ix / 256 % 256) as u8,
    ]
}

fn bit(b: bool) -> u8
    ensures { result ≡ bit_of b }
{
    if b { 1 } else { 0 }
}

fn video_bits(v: Video) -> u8
    ensures { result ≡ video_bits v }
{
    match v {
        Video::Normal => 0,
        Video::High => 1,
        Video::Low => 3,
    }
}

pub fn switch_bytes(s: Switches, pc: u16) -> [u8; 7]
    ensures { result ≡ switch_bytes s pc }
{
    let v = s.video;
    let video = video_bits(v);
    [
        bit(s.iff1),
        bit(s.iff2),
        s.im % 4
            + 4 * (bit(s.issue2) % 2)
            + 8 * (bit(s.double) % 2)
            + 16 * (video % 4)
            + 64 * (s.joystick % 4),
        54,
        0,
        (pc % 256) as u8,
        (pc / 256 % 256) as u8,
    ]
}

fn mode_byte(model: Model, attachment: Attachment) -> u8
    ensures { result ≡ mode_byte model attachment }
{
    match model {
        Model::K48 => match attachment {
            Attachment::Nothing => 0,
            Attachment::InterfaceI => 1,
            Attachment::Mgt => 3,
        },
        Model::K128 => match attachment {
            Attachment::Nothing => 4,
            Attachment::InterfaceI => 5,
            Attachment::Mgt => 6,
        },
    }
}

fn chip_bit(model: Model, chip: bool) -> u8
    ensures { result ≡ chip_bit model chip }
{
    match model {
        Model::K48 => bit(chip),
        Model::K128 => 0,
    }
}

pub fn port_bytes(m: Machine) -> [u8; 5]
    ensures { result ≡ port_bytes m }
{
    let model = m.model;
    let attachment = m.attachment;
    [
        mode_byte(model, attachment),
        m.out7ffd,
        m.byte36,
        bit(m.remulation) % 2 + 2 * (bit(m.ldiremulation) % 2) + 4 * (chip_bit(model, m.chip) % 2),
        m.outfffd,
    ]
}

pub fn counter_bytes(model: Model, position: u32, side59: u8) -> [u8; 6]
    ensures { result ≡ counter_bytes model position side59 }
{
    let low = clock::low_counter(model, position);
    let high = clock::high_counter(model, position);
    [
        (low % 256) as u8,
        (low / 256 % 256) as u8,
        (high % 256) as u8,
        0,
        side59,
        0,
    ]
}
