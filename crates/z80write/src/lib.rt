// Writing the one v3 file of a machine and its memory: blocks are packed into the output itself, then the header.
// Above blocks_write and header_write, through their promises alone.
#![tactic(auto)]

ghost use Rattle.std.specs.Prelude.{length};
ghost use Rattle.z80write.specs.Written.{refused_write, written_of, Writes};

use numbers::{Answer, Refusal};
use packed::Fit;
use spectrum::Machine;

// The answer of writing, and the file's length.
#[derive(Clone, Copy)]
pub struct Written {
    pub answer: Answer,
    pub length: usize,
}

// The file of a machine and its memory into out; past its length out is zero. Refused, out is all zero.
pub fn write(m: Machine, area: &[u8], out: &mut [u8]) -> Written
    ensures { Writes (written_of m area.now (length out.old)) result out.new }
{
    m.typed();
    if m.valid() {
        if area.len() != 131072 {
            return refuse_write(out, Refusal::MemoryLength);
        }
        if out.len() < 86 {
            return refuse_write(out, Refusal::OutputShort);
        }
        let model = m.model;
        let fit = blocks_write::lay(area, model, &mut out[86..]);
        match fit {
            Fit::Length(n) => {
                header_write::write_header(m, out);
                return Written {
                    answer: Ok(()),
                    length: 86 + n,
                };
            }
            Fit::TooShort => return refuse_write(out, Refusal::OutputShort),
        }
    }
    refuse_write(out, Refusal::InvalidMachine)
}

fn refuse_write(out: &mut [u8], why: Refusal) -> Written
    ensures { Writes (refused_write why (length out.old)) result out.new }
{
    slices::fill(out, 0);
    Written {
        answer: Err(why),
        length: 0,
    }
}
