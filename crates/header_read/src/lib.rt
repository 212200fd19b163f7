// The machine that a header gives, part by part.
#![tactic(auto)]

ghost use Rattle.std.specs.Prelude.{◌+◌, ◌<◌, ◌≤◌, ◌≡◌, true, length, take, drop};
ghost use Rattle.slices.specs.Bytes.{at};
ghost use Rattle.pages.specs.declared.Model.TheVariants.{K128};
ghost use Rattle.header.specs.Heads.{header_length};
ghost use Rattle.header.specs.Inner.{Readable};
ghost use Rattle.header_read.specs.Reading.{pc_at, pairs_before, pairs_of, video_of, switches_of, carried, after_v1, chip_of, chip_byte, sound_of, frame_position, side59_of, no_side, side_of, machine_of};

use header::Version;
use pages::Model;
use spectrum::{Attachment, Machine, Switches, Video};

fn pc_at(version: Version) -> usize
    ensures { result ≡ pc_at version }
{
    match version {
        Version::V1 => 6,
        Version::V2 => 32,
        Version::V3 => 32,
    }
}

fn read_pairs(s: &[u8], version: Version) -> [u16; 12]
    requires { header_length version ≤ length s.now }
    ensures { result ≡ pairs_of version s.now }
{
    let pc = header::word(s, pc_at(version));
    pairs_with(s, pc)
}

fn pairs_with(s: &[u8], pc: u16) -> [u16; 12]
    requires { 30 ≤ length s.now }
    ensures { result ≡ pairs_before s.now pc }
{
    [
        slices::word_of(s[1], s[0]),
        header::word(s, 2),
        header::word(s, 13),
        header::word(s, 4),
        slices::word_of(s[22], s[21]),
        header::word(s, 15),
        header::word(s, 17),
        header::word(s, 19),
        header::word(s, 25),
        header::word(s, 23),
        header::word(s, 8),
        pc,
    ]
}

fn read_video(n: u8) -> Video
    ensures { result ≡ video_of n }
{
    match n {
        1 => Video::High,
        3 => Video::Low,
        _ => Video::Normal,
    }
}

fn read_switches(s: &[u8]) -> Switches
    requires { 30 ≤ length s.now }
    ensures { result ≡ switches_of s.now }
{
    let b = s[29];
    let c = header::byte12(s);
    let video = read_video(b / 16 % 4);
    Switches {
        border: c / 2 % 8,
        iff1: s[27] != 0,
        iff2: s[28] != 0,
        im: b % 4,
        issue2: b / 4 % 2 == 1,
        double: b / 8 % 2 == 1,
        video: video,
        joystick: b / 64 % 4,
    }
}

// A byte of the later versions that only a 128K machine carries.
fn carry(s: &[u8], model: Model, place: usize) -> u8
    requires { (model ≡ K128 → 55 ≤ length s.now) × (place < 55) }
    ensures { result ≡ carried model (at s.now place) }
{
    match model {
        Model::K48 => 0,
        Model::K128 => s[place],
    }
}

// A byte that v1 lacks.
fn later_byte(s: &[u8], version: Version, place: usize) -> u8
    requires { (header_length version ≤ length s.now) × (place < 55) }
    ensures { result ≡ after_v1 version (at s.now place) }
{
    match version {
        Version::V1 => 0,
        Version::V2 => s[place],
        Version::V3 => s[place],
    }
}

fn part25(s: &[u8], from: usize) -> [u8; 25]
    requires { from + 25 ≤ length s.now }
    ensures { result ≡ take 25 (drop from s.now) }
{
    let mut t = [0u8; 25];
    t.copy_from_slice(&s[from..from + 25]);
    t
}

// Whether the machine has the sound chip, by byte 37.
fn read_chip(model: Model, b: u8) -> bool
    ensures { result ≡ chip_of model b }
{
    match model {
        Model::K48 => b / 4 % 2 == 1,
        Model::K128 => true,
    }
}

// A byte of the later versions that only a machine with the sound chip carries.
fn chip_byte(s: &[u8], chip: bool, place: usize) -> u8
    requires { (chip ≡ true → 55 ≤ length s.now) × (place < 55) }
    ensures { result ≡ chip_byte chip (at s.now place) }
{
    if chip { s[place] } else { 0 }
}

fn read_sound(s: &[u8], chip: bool) -> [u8; 16]
    requires { chip ≡ true → 55 ≤ length s.now }
    ensures { result ≡ sound_of chip s.now }
{
    if chip {
        slices::part16(s, 39)
    } else {
        [0u8; 16]
    }
}

fn read_position(s: &[u8], version: Version, model: Model) -> u32
    requires { header_length version ≤ length s.now }
    ensures { result ≡ frame_position version model s.now }
{
    match version {
        Version::V1 => 0,
        Version::V2 => 0,
        Version::V3 => clock::position(model, header::word(s, 55), s[57]),
    }
}

fn read_side59(s: &[u8], version: Version) -> u8
    requires { header_length version ≤ length s.now }
    ensures { result ≡ side59_of version s.now }
{
    match version {
        Version::V1 => 0,
        Version::V2 => 0,
        Version::V3 => s[59],
    }
}

// The side bytes from 61 on that v1 and v2 give.
pub fn no_side() -> [u8; 25]
    ensures { result ≡ no_side }
{
    [
        255, 255, 0, 0, 0, 0, 0, 0, 0, 0, 0, 0, 0, 0, 0, 0, 0, 0, 0, 0, 0, 0, 0, 0, 0,
    ]
}

fn read_side(s: &[u8], version: Version) -> [u8; 25]
    requires { header_length version ≤ length s.now }
    ensures { result ≡ side_of version s.now }
{
    match version {
        Version::V1 => no_side(),
        Version::V2 => no_side(),
        Version::V3 => part25(s, 61),
    }
}

// The machine that a header gives.
pub fn read_machine(s: &[u8], version: Version, model: Model, attachment: Attachment) -> Machine
    requires { Readable version model s.now }
    ensures { result ≡ machine_of version model attachment s.now }
{
    let pairs = read_pairs(s, version);
    let switches = read_switches(s);
    let r = s[11] % 128 + 128 * (header::byte12(s) % 2);
    let byte36 = later_byte(s, version, 36);
    let b = later_byte(s, version, 37);
    let chip = read_chip(model, b);
    let out7ffd = carry(s, model, 35);
    let outfffd = chip_byte(s, chip, 38);
    let sound = read_sound(s, chip);
    let position = read_position(s, version, model);
    let side59 = read_side59(s, version);
    let side = read_side(s, version);
    Machine {
        pairs: pairs,
        i: s[10],
        r: r,
        switches: switches,
        model: model,
        attachment: attachment,
        out7ffd: out7ffd,
        byte36: byte36,
        remulation: b / 1 % 2 == 1,
        ldiremulation: b / 2 % 2 == 1,
        chip: chip,
        outfffd: outfffd,
        sound: sound,
        position: position,
        side59: side59,
        side: side,
    }
}
