// Why a .Z80 file is refused: the parse of reading, without an area.
#![tactic(auto)]

ghost use Rattle.std.specs.Prelude.{◌≤◌, ◌≡◌, length};
ghost use Rattle.slices.specs.Blank.{blank};
ghost use Rattle.header.specs.Heads.{header_length};
ghost use Rattle.z80read.specs.Read.{memory_into};
ghost use Rattle.z80explain.specs.Explain.{nothing_wrong, told, told_body, explain_of};

use blocks::BodyAnswer;
use header::{Head, Version};
use numbers::{Answer, FileFault};
use pages::Model;

// The answer of reading, the place that is named with it, the block from 1 on, what was found and what is due.
#[derive(Clone, Copy)]
pub struct Explained {
    pub answer: Answer,
    pub place: usize,
    pub block: usize,
    pub found: usize,
    pub due: usize,
}

// Why a file is refused; all is 0 where it is not.
pub fn explain(file: &[u8]) -> Explained
    ensures { result ≡ explain_of file.now }
{
    let head = header::read_head(file);
    match head {
        Head::Refused(fault) => refused_for(fault),
        Head::Header {
            version,
            model,
            attachment: _,
        } => explain_body(file, version, model),
    }
}

// What follows the header, read into nothing.
fn explain_body(file: &[u8], version: Version, model: Model) -> Explained
    requires { header_length version ≤ length file.now }
    ensures { result ≡ told_body (memory_into version model (blank 131072) file.now) }
{
    let mut nothing = [0u8; 0];
    match z80read::read_memory(file, version, model, &mut nothing) {
        BodyAnswer::Whole => all_good(),
        BodyAnswer::Faulty(fault) => refused_for(fault),
    }
}

fn all_good() -> Explained
    ensures { result ≡ nothing_wrong }
{
    Explained {
        answer: Ok(()),
        place: 0,
        block: 0,
        found: 0,
        due: 0,
    }
}

fn refused_for(fault: FileFault) -> Explained
    ensures { result ≡ told fault }
{
    let why = fault.why;
    Explained {
        answer: Err(why),
        place: fault.place,
        block: fault.block,
        found: fault.found,
        due: fault.due,
    }
}
