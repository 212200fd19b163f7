// Reading an SCS file with a Spectrum inside, already unwrapped, into a machine and a lent area of 131,072 bytes. The blocks are looked
// through before anything is copied.
#![tactic(auto)]

ghost use Rattle.std.specs.Prelude.{◌≡◌, length};
ghost use Rattle.z80read.specs.Read.{refused_read, ReadLeaves, Reads};
ghost use Rattle.scs_blocks.specs.ScsBlocks.{data_of, zero_filled};
ghost use Rattle.scs_read.specs.ScsReads.{after_seen, scs_read_of};

use numbers::{FileFault, Refusal};
use pages::Model;
use scs_blocks::{ScsFound, ScsPart, ScsSeen};
use scs_head::ScsHead;
use spectrum::Machine;
use z80read::Opened;

// The file read into the area. Refused, the machine is blank and the area all zero, whatever its length.
pub fn read(file: &[u8], area: &mut [u8]) -> Opened
    ensures { Reads (scs_read_of file.now (length area.old)) result area.new }
{
    if area.len() != 131072 {
        return refused_scs(area, numbers::no_place(Refusal::AreaLength));
    }
    let head = scs_head::read_scs_head(file);
    match head {
        ScsHead::Bad(why) => return refused_scs(area, numbers::no_place(why)),
        ScsHead::Spectrum(model) => {
            let found = scs_blocks::find_blocks(file, 15);
            match found {
                ScsFound::Bad(fault) => return refused_scs(area, fault),
                ScsFound::Blocks(seen) => return load(file, model, seen, area),
            }
        }
    }
}

fn refused_scs(area: &mut [u8], fault: FileFault) -> Opened
    ensures { ReadLeaves (refused_read fault (length area.old)) result area.new }
{
    slices::fill(area, 0);
    let why = fault.why;
    Opened {
        answer: Err(why),
        place: fault.place,
        machine: Machine::blank(),
    }
}

// The machine and the memory of the blocks that were seen.
fn load(file: &[u8], model: Model, seen: ScsSeen, area: &mut [u8]) -> Opened
    requires { length area.old ≡ 131072 }
    ensures { ReadLeaves (after_seen seen model file.now (length area.old)) result area.new }
{
    let cpu_part = seen.cpu;
    let ports_part = seen.ports;
    let memory_part = seen.memory;
    if scs_blocks::saw_all(seen) {
        let cpu = cpu_of(file, cpu_part);
        if cpu[26] % 4 == 3 {
            return refused_scs(area, numbers::no_place(Refusal::InterruptMode));
        }
        let ports = ports_of(file, ports_part);
        scs_memory::load_memory(scs_blocks::data_of(file, memory_part), model, area);
        let machine = scs_machine::machine_from(model, cpu, ports);
        return Opened {
            answer: Ok(()),
            place: 0,
            machine: machine,
        };
    }
    refused_scs(area, numbers::no_place(Refusal::ScsBlockMissing))
}

fn cpu_of(file: &[u8], part: ScsPart) -> [u8; 34]
    ensures { result ≡ zero_filled 34 (data_of file.now part) }
{
    let mut cpu = [0u8; 34];
    scs_blocks::fill_from(scs_blocks::data_of(file, part), &mut cpu);
    cpu
}

fn ports_of(file: &[u8], part: ScsPart) -> [u8; 19]
    ensures { result ≡ zero_filled 19 (data_of file.now part) }
{
    let mut ports = [0u8; 19];
    scs_blocks::fill_from(scs_blocks::data_of(file, part), &mut ports);
    ports
}
