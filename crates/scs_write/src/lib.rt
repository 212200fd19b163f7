// Writing the one SCS file of a machine and its memory, in one pass over the output.
#![tactic(auto)]

ghost use Rattle.std.specs.Prelude.{◌+◌, ◌-◌, ◌≤◌, ◌≡◌, ◌++◌, ◌∷◌, length, replicate};
ghost use Rattle.slices.specs.Put.{put};
ghost use Rattle.z80write.specs.Written.{refused_write, Writes};
ghost use Rattle.scs_pieces.specs.ScsPieces.{scs_cpu, scs_ports};
ghost use Rattle.scs_blocks.specs.ScsIdentity.{hardware_of};
ghost use Rattle.scs_memory.specs.ScsMemory.{memory_size};
ghost use Rattle.scs_write.specs.ScsWritten.{scs_header, size_bytes, scs_block, scs_file_of, scs_written_of};

use numbers::Refusal;
use pages::Model;
use spectrum::Machine;
use z80write::Written;

// The file of a machine and its memory into out; past its length out is zero. Refused, out is all zero.
pub fn write(m: Machine, area: &[u8], out: &mut [u8]) -> Written
    ensures { Writes (scs_written_of m area.now (length out.old)) result out.new }
{
    m.typed();
    if m.valid() {
        if area.len() != 131072 {
            return refused_scs_write(out, Refusal::MemoryLength);
        }
        let model = m.model;
        let length = 88 + size_of_memory(model);
        if out.len() < length {
            return refused_scs_write(out, Refusal::OutputShort);
        }
        lay_file(m, area, out);
        return Written {
            answer: Ok(()),
            length: length,
        };
    }
    refused_scs_write(out, Refusal::InvalidMachine)
}

fn refused_scs_write(out: &mut [u8], why: Refusal) -> Written
    ensures { Writes (refused_write why (length out.old)) result out.new }
{
    slices::fill(out, 0);
    Written {
        answer: Err(why),
        length: 0,
    }
}

fn size_of_memory(model: Model) -> usize
    ensures { result ≡ memory_size model }
{
    match model {
        Model::K48 => 49152,
        Model::K128 => 131072,
    }
}

// The file from the start of out on, and zeros behind it: its last five bytes are zeros too.
fn lay_file(m: Machine, area: &[u8], out: &mut [u8])
    requires { (length area.now ≡ 131072) × (88 + memory_size m.model ≤ length out.old) }
    ensures { out.new ≡ scs_file_of m area.now ++ replicate (length out.old - length (scs_file_of m area.now)) 0 }
{
    m.typed();
    let model = m.model;
    let end = 20 + size_of_memory(model);
    lay_front(model, out);
    scs_memory::store_memory(area, model, out, 20);
    put_cpu(m, out, end);
    put_ports(m, out, end + 39);
    slices::clear_from(out, end + 63);
}

// The header, and the head of the Memory block.
fn lay_front(model: Model, out: &mut [u8])
    requires { 20 ≤ length out.old }
    ensures { out.new ≡ put out.old 0 (scs_header model ++ (3 ∷ size_bytes (memory_size model))) }
{
    slices::put_at(out, 0, b"SamSnap!ASCD\x00b");
    slices::put_at(out, 14, &hardware_and_size(model));
}

fn hardware_and_size(model: Model) -> [u8; 6]
    ensures { result ≡ hardware_of model ∷ 3 ∷ size_bytes (memory_size model) }
{
    match model {
        Model::K48 => [1, 3, 0, 192, 0, 0],
        Model::K128 => [2, 3, 0, 0, 2, 0],
    }
}

fn put_cpu(m: Machine, out: &mut [u8], place: usize)
    requires { place + 39 ≤ length out.old }
    ensures { out.new ≡ put out.old place (scs_block 1 (scs_cpu m)) }
{
    let pairs = m.pairs;
    let switches = m.switches;
    slices::put_at(out, place, &[1, 34, 0, 0, 0]);
    slices::put_at(out, place + 5, &scs_pieces::high_first_pairs(pairs));
    slices::put_at(out, place + 21, &scs_pieces::low_first_pairs(pairs));
    slices::put_at(
        out,
        place + 29,
        &scs_pieces::cpu_settings(m.i, m.r, switches),
    );
}

fn put_ports(m: Machine, out: &mut [u8], place: usize)
    requires { place + 24 ≤ length out.old }
    ensures { out.new ≡ put out.old place (scs_block 2 (scs_ports m)) }
{
    m.typed();
    let sound = m.sound;
    slices::put_at(out, place, &[2, 19, 0, 0, 0]);
    slices::put_at(out, place + 5, &scs_pieces::ports_front(m));
    slices::put16(out, place + 8, &sound);
}
