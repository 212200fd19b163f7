// Reading a .Z80 file, v1, v2 or v3, into a machine and a lent area of 131,072 bytes.
#![tactic(auto)]

ghost use Rattle.std.specs.Prelude.{◌≤◌, ◌≡◌, length};
ghost use Rattle.slices.specs.Blank.{blank};
ghost use Rattle.numbers.specs.Numbers.{accepted};
ghost use Rattle.spectrum.specs.Machine.{blank_machine};
ghost use Rattle.header.specs.Heads.{header_length};
ghost use Rattle.header_read.specs.Reading.{machine_of};
ghost use Rattle.header.specs.Inner.{Readable};
ghost use Rattle.blocks.specs.Blocks.{ZerosLent, ReadsBody};
ghost use Rattle.z80read.specs.Read.{memory_into, after_body, read_of, ReadLeaves, Reads};

use blocks::BodyAnswer;
use header::{Head, Version};
use numbers::{Answer, FileFault, Refusal};
use pages::Model;
use spectrum::{Attachment, Machine};

// What reading gives beside the area: the answer, the place in the file that is named with it, and the machine.
#[derive(Clone, Copy)]
pub struct Opened {
    pub answer: Answer,
    pub place: usize,
    pub machine: Machine,
}

// The file read into the area. Refused, the machine is blank and the area all zero, whatever its length.
pub fn read(file: &[u8], area: &mut [u8]) -> Opened
    ensures { Reads (read_of file.now (length area.old)) result area.new }
{
    slices::clear_from(area, 0);
    if area.len() != 131072 {
        return refused_file(numbers::no_place(Refusal::AreaLength));
    }
    let head = header::read_head(file);
    match head {
        Head::Refused(fault) => return refused_file(fault),
        Head::Header {
            version,
            model,
            attachment,
        } => return read_on(file, version, model, attachment, area),
    }
}

// The memory and the machine, after a header that is accepted.
fn read_on(
    file: &[u8],
    version: Version,
    model: Model,
    attachment: Attachment,
    area: &mut [u8],
) -> Opened
    requires { (Readable version model file.now) × ((length area.old ≡ 131072) × ZerosLent area.old) }
    ensures { ReadLeaves (after_body (memory_into version model (blank 131072) file.now) (machine_of version model attachment file.now) (length area.old)) result area.new }
{
    let answer = read_memory(file, version, model, area);
    match answer {
        BodyAnswer::Faulty(fault) => return refused_file(fault),
        BodyAnswer::Whole => {
            let machine = header_read::read_machine(file, version, model, attachment);
            return accepted_file(machine);
        }
    }
}

// What follows the header, into an area of zeros, or without one. Refused, the area is all zero.
pub fn read_memory(file: &[u8], version: Version, model: Model, area: &mut [u8]) -> BodyAnswer
    requires { (header_length version ≤ length file.now) × ZerosLent area.old }
    ensures { ReadsBody (memory_into version model (blank 131072) file.now) (length area.old) result area.new }
{
    match version {
        Version::V1 => {
            let b = header::byte12(file);
            return body_v1::read_body(file, 30, b / 32 % 2 == 1, area);
        }
        Version::V2 => return blocks::read_blocks(file, 55, model, area),
        Version::V3 => return blocks::read_blocks(file, 86, model, area),
    }
}

fn accepted_file(machine: Machine) -> Opened
    ensures { (result.answer ≡ accepted) × ((result.place ≡ 0) × (result.machine ≡ machine)) }
{
    Opened {
        answer: Ok(()),
        place: 0,
        machine: machine,
    }
}

fn refused_file(fault: FileFault) -> Opened
    ensures { result ≡ record { answer = Err fault.why; place = fault.place; machine = blank_machine } }
{
    let why = fault.why;
    Opened {
        answer: Err(why),
        place: fault.place,
        machine: Machine::blank(),
    }
}
