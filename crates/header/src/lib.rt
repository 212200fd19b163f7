// What the header of a .Z80 file says before any machine is read: v1, v2 or v3, model and attachment, or why it is refused.
#![tactic(auto)]

ghost use Rattle.std.specs.Prelude.{◌+◌, ◌<◌, ◌≤◌, ◌≡◌, length};
ghost use Rattle.slices.specs.Bytes.{word_at};
ghost use Rattle.numbers.specs.Faults.{with_figures};
ghost use Rattle.clock.specs.Clock.{quarter};
ghost use Rattle.header.specs.Heads.{byte12_of, header_length, version_of, mode2, mode3, mode_of, clock_head, mode_head, later_head, first_head, head_of};

use numbers::{FileFault, Refusal};
use pages::Model;
use spectrum::Attachment;

#[derive(Clone, Copy)]
pub enum Version {
    V1,
    V2,
    V3,
}

#[derive(Clone, Copy)]
pub enum Known {
    Is(Version),
    Unknown,
}

#[derive(Clone, Copy)]
pub enum Mode {
    Carried(Model, Attachment),
    NotCarried,
}

// A file's header: a refusal, or what decides how the rest is read.
#[derive(Clone, Copy)]
pub enum Head {
    Refused(FileFault),
    Header {
        version: Version,
        model: Model,
        attachment: Attachment,
    },
}

pub fn word(s: &[u8], place: usize) -> u16
    requires { place + 1 < length s.now }
    ensures { result ≡ word_at s.now place }
{
    slices::word_of(s[place], s[place + 1])
}

// Byte 12, where 255 counts as 1.
pub fn byte12(s: &[u8]) -> u8
    requires { 12 < length s.now }
    ensures { result ≡ byte12_of s.now }
{
    let b = s[12];
    if b == 255 {
        return 1;
    }
    b
}

fn header_length(version: Version) -> usize
    ensures { result ≡ header_length version }
{
    match version {
        Version::V1 => 30,
        Version::V2 => 55,
        Version::V3 => 86,
    }
}

fn version_of(n: u16) -> Known
    ensures { result ≡ version_of n }
{
    match n {
        23 => Known::Is(Version::V2),
        54 => Known::Is(Version::V3),
        _ => Known::Unknown,
    }
}

fn mode_v2(hardware: u8) -> Mode
    ensures { result ≡ mode2 hardware }
{
    match hardware {
        0 => Mode::Carried(Model::K48, Attachment::Nothing),
        1 => Mode::Carried(Model::K48, Attachment::InterfaceI),
        3 => Mode::Carried(Model::K128, Attachment::Nothing),
        4 => Mode::Carried(Model::K128, Attachment::InterfaceI),
        _ => Mode::NotCarried,
    }
}

pub fn mode_v3(hardware: u8) -> Mode
    ensures { result ≡ mode3 hardware }
{
    match hardware {
        0 => Mode::Carried(Model::K48, Attachment::Nothing),
        1 => Mode::Carried(Model::K48, Attachment::InterfaceI),
        3 => Mode::Carried(Model::K48, Attachment::Mgt),
        4 => Mode::Carried(Model::K128, Attachment::Nothing),
        5 => Mode::Carried(Model::K128, Attachment::InterfaceI),
        6 => Mode::Carried(Model::K128, Attachment::Mgt),
        _ => Mode::NotCarried,
    }
}

fn mode_of(version: Version, hardware: u8) -> Mode
    ensures { result ≡ mode_of version hardware }
{
    match version {
        Version::V1 => Mode::Carried(Model::K48, Attachment::Nothing),
        Version::V2 => mode_v2(hardware),
        Version::V3 => mode_v3(hardware),
    }
}

fn quarter_of(model: Model) -> u16
    ensures { result ≡ quarter model }
{
    match model {
        Model::K48 => 17472,
        Model::K128 => 17727,
    }
}

// A header refused, with two figures.
fn refused_head(why: Refusal, found: usize, due: usize) -> Head
    ensures { result ≡ Head.Refused (with_figures why found due) }
{
    Head::Refused(numbers::figured(why, found, due))
}

// What the header of a file says, or why it is refused.
pub fn read_head(file: &[u8]) -> Head
    ensures { result ≡ head_of file.now }
{
    if file.len() < 30 {
        return refused_head(Refusal::FileShort, file.len(), 30);
    }
    if word(file, 6) != 0 {
        return first_head(file);
    }
    if file.len() < 32 {
        return refused_head(Refusal::FileShort, file.len(), 32);
    }
    let known = version_of(word(file, 30));
    match known {
        Known::Unknown => refused_head(Refusal::UnknownVersion, 0, 0),
        Known::Is(version) => later_head(file, version),
    }
}

fn first_head(file: &[u8]) -> Head
    requires { 30 ≤ length file.now }
    ensures { result ≡ first_head file.now }
{
    let b = byte12(file);
    if b / 16 % 2 == 1 {
        return refused_head(Refusal::ModeNotCarried, 0, 0);
    }
    if file[29] % 4 == 3 {
        return refused_head(Refusal::InterruptMode, 0, 0);
    }
    Head::Header {
        version: Version::V1,
        model: Model::K48,
        attachment: Attachment::Nothing,
    }
}

fn later_head(file: &[u8], version: Version) -> Head
    requires { 55 ≤ header_length version }
    ensures { result ≡ later_head (Known.Is version) file.now }
{
    let least = header_length(version);
    if file.len() < least {
        return refused_head(Refusal::FileShort, file.len(), least);
    }
    let found = mode_of(version, file[34]);
    match found {
        Mode::NotCarried => refused_head(Refusal::ModeNotCarried, 0, 0),
        Mode::Carried(model, attachment) => mode_head(file, version, model, attachment),
    }
}

fn mode_head(file: &[u8], version: Version, model: Model, attachment: Attachment) -> Head
    requires { header_length version ≤ length file.now }
    ensures { result ≡ mode_head version (Mode.Carried model attachment) file.now }
{
    if file[29] % 4 == 3 {
        return refused_head(Refusal::InterruptMode, 0, 0);
    }
    match version {
        Version::V1 => Head::Header {
            version: Version::V1,
            model,
            attachment,
        },
        Version::V2 => Head::Header {
            version: Version::V2,
            model,
            attachment,
        },
        Version::V3 => clock_head(file, model, attachment),
    }
}

fn clock_head(file: &[u8], model: Model, attachment: Attachment) -> Head
    requires { 86 ≤ length file.now }
    ensures { result ≡ clock_head (Version.V3) model attachment file.now }
{
    let quarter = quarter_of(model);
    let low = word(file, 55);
    if quarter <= low {
        return refused_head(Refusal::CounterRange, low as usize, (quarter - 1) as usize);
    }
    let high = file[57];
    if 3 < high {
        return refused_head(Refusal::CounterRange, slices::wide(high), 3);
    }
    if file[60] != 0 {
        return refused_head(Refusal::Byte60, 0, 0);
    }
    Head::Header {
        version: Version::V3,
        model,
        attachment,
    }
}
