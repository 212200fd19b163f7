// The machine that an SCS file gives, from its CPU and Ports blocks.
#![tactic(auto)]

ghost use Rattle.std.specs.Prelude.{◌≡◌};
ghost use Rattle.header_read.specs.Reading.{carried};
ghost use Rattle.scs_machine.specs.ScsMachine.{scs_pairs, scs_switches, scs_machine};

use pages::Model;
use spectrum::{Attachment, Machine, Switches, Video};

// The machine that both blocks give.
pub fn machine_from(model: Model, cpu: [u8; 34], ports: [u8; 19]) -> Machine
    ensures { result ≡ scs_machine model cpu ports }
{
    let pairs = pairs_from(cpu);
    let switches = switches_from(cpu, ports);
    let out7ffd = carry_byte(model, ports[1]);
    let sound = slices::part16(&ports, 3);
    let side = header_read::no_side();
    Machine {
        pairs: pairs,
        i: cpu[24],
        r: cpu[25],
        switches: switches,
        model: model,
        out7ffd: out7ffd,
        chip: true,
        outfffd: ports[2] % 16,
        sound: sound,
        attachment: Attachment::Nothing,
        byte36: 0,
        remulation: false,
        ldiremulation: false,
        position: 0,
        side59: 0,
        side: side,
    }
}

fn pairs_from(cpu: [u8; 34]) -> [u16; 12]
    ensures { result ≡ scs_pairs cpu }
{
    [
        slices::word_of(cpu[1], cpu[0]),
        slices::word_of(cpu[3], cpu[2]),
        slices::word_of(cpu[5], cpu[4]),
        slices::word_of(cpu[7], cpu[6]),
        slices::word_of(cpu[9], cpu[8]),
        slices::word_of(cpu[11], cpu[10]),
        slices::word_of(cpu[13], cpu[12]),
        slices::word_of(cpu[15], cpu[14]),
        slices::word_of(cpu[16], cpu[17]),
        slices::word_of(cpu[18], cpu[19]),
        slices::word_of(cpu[22], cpu[23]),
        slices::word_of(cpu[20], cpu[21]),
    ]
}

fn switches_from(cpu: [u8; 34], ports: [u8; 19]) -> Switches
    ensures { result ≡ scs_switches cpu ports }
{
    let iff = cpu[27];
    Switches {
        border: ports[0] % 8,
        iff1: iff / 1 % 2 == 1,
        iff2: iff / 2 % 2 == 1,
        im: cpu[26] % 4,
        issue2: false,
        double: false,
        video: Video::Normal,
        joystick: 0,
    }
}

// A byte that only a 128K machine carries.
fn carry_byte(model: Model, b: u8) -> u8
    ensures { result ≡ carried model b }
{
    match model {
        Model::K48 => 0,
        Model::K128 => b,
    }
}
