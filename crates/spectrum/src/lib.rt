// A Spectrum as one record by value: all that is carried of it but its memory.
#![tactic(auto)]

ghost use Rattle.std.specs.Prelude.{◌≡◌, get_or, ltb};
ghost use Rattle.spectrum.specs.Machine.{with_pair, with_out, blank_machine};
ghost use Rattle.spectrum.specs.Valid.{Typed, zeros, sound_fits, ports_fit, valid_of};
ghost use Rattle.pages.specs.Pages.{place_of};

use pages::{Model, Place};

#[derive(Clone, Copy)]
pub enum Attachment {
    Nothing,
    InterfaceI,
    Mgt,
}

#[derive(Clone, Copy)]
pub enum Video {
    Normal,
    High,
    Low,
}

#[derive(Clone, Copy)]
pub struct Switches {
    pub border: u8,
    pub iff1: bool,
    pub iff2: bool,
    pub im: u8,
    pub issue2: bool,
    pub double: bool,
    pub video: Video,
    pub joystick: u8,
}

// All that is carried of a machine but its memory. The order is for the compiler: a machine has 88 bytes, which are copied,
// whole or in part, in pieces that do not overlap.
#[derive(Clone, Copy)]
pub struct Machine {
    // AF BC DE HL AF' BC' DE' HL' IX IY SP PC
    pub pairs: [u16; 12],
    pub model: Model,
    // the last OUT to 7FFD, and to FFFD
    pub out7ffd: u8,
    pub outfffd: u8,
    // whether it has the sound chip; a 128K machine always has
    pub chip: bool,
    // the frame position
    pub position: u32,
    pub sound: [u8; 16],
    pub attachment: Attachment,
    pub i: u8,
    pub r: u8,
    pub byte36: u8,
    // bits 0 and 1 of byte 37
    pub remulation: bool,
    pub ldiremulation: bool,
    // the 26 side bytes: byte 59, and bytes 61 to 85
    pub side59: u8,
    pub side: [u8; 25],
    pub switches: Switches,
}

impl Machine {
    // "The blank machine".
    pub fn blank() -> Machine
        ensures { result ≡ blank_machine }
    {
        let pairs = [0u16; 12];
        let sound = [0u8; 16];
        let side = [0u8; 25];
        let switches = Switches {
            border: 0,
            iff1: false,
            iff2: false,
            im: 0,
            issue2: false,
            double: false,
            video: Video::Normal,
            joystick: 0,
        };
        Machine {
            pairs: pairs,
            i: 0,
            r: 0,
            switches: switches,
            model: Model::K48,
            attachment: Attachment::Nothing,
            out7ffd: 0,
            byte36: 0,
            remulation: false,
            ldiremulation: false,
            outfffd: 0,
            chip: false,
            sound: sound,
            position: 0,
            side59: 0,
            side: side,
        }
    }

    // 0 where there is no such pair.
    pub fn pair(self, p: usize) -> u16
        ensures { result ≡ get_or self.pairs p 0 }
    {
        if p < 12 { self.pairs[p] } else { 0 }
    }

    // The machine as it is where there is no such pair.
    pub fn with_pair(mut self, p: usize, value: u16) -> Machine
        ensures { result ≡ with_pair self p value }
    {
        if p < 12 {
            self.pairs[p] = value;
        }
        self
    }

    pub fn with_out(mut self, value: u8) -> Machine
        ensures { result ≡ with_out self value }
    {
        self.out7ffd = value;
        self
    }

    // Whether the machine is valid.
    pub fn valid(self) -> bool
        ensures { result ≡ valid_of self }
    {
        let switches = self.switches;
        let model = self.model;
        let im = below(switches.im as u32, 3);
        let border = below(switches.border as u32, 8);
        let joystick = below(switches.joystick as u32, 4);
        let position = below(self.position, clock::clock_end(model));
        let ports = self.ports_fit();
        slices::and(
            im,
            slices::and(border, slices::and(joystick, slices::and(position, ports))),
        )
    }

    // Whether a 48K machine has no last OUT to 7FFD and, without the sound chip, none to FFFD and no sound; whether a 128K machine has
    // the chip.
    fn ports_fit(self) -> bool
        ensures { result ≡ ports_fit self.model self }
    {
        let model = self.model;
        let sound = self.sound;
        match model {
            Model::K48 => slices::and(
                self.out7ffd == 0,
                sound_fits(self.chip, self.outfffd, &sound),
            ),
            Model::K128 => self.chip,
        }
    }

    // Where an address leads.
    pub fn place(self, address: u16) -> Place
        ensures { result ≡ place_of self.model self.out7ffd address }
    {
        let model = self.model;
        pages::place_of(model, self.out7ffd, address)
    }

    // What the types of the fields say, for a caller's proof.
    pub fn typed(self)
        ensures { Typed self }
    {}
}

fn below(a: u32, b: u32) -> bool
    ensures { result ≡ ltb a b }
{
    a < b
}

// With the chip any sound, without it none. Looks at the sound in either case, so that the compiler can look at many bytes at once.
fn sound_fits(chip: bool, outfffd: u8, sound: &[u8; 16]) -> bool
    ensures { result ≡ sound_fits chip outfffd sound.now }
{
    let none = slices::and(outfffd == 0, silent(sound));
    if chip { true } else { none }
}

// Looks at every byte, so that the compiler can look at many at once.
fn silent(sound: &[u8]) -> bool
    ensures { result ≡ zeros sound.now }
{
    let mut all = true;
    let mut i = 0;
    while i < sound.len() {
        all = slices::and(all, sound[i] == 0);
        i += 1;
    }
    all
}
