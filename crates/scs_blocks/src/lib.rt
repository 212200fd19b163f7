// The blocks of an SCS file: one pass that notes where the data of the CPU, Ports and Memory blocks stand, and copies nothing.
#![tactic(auto)]

ghost use Rattle.std.specs.Prelude.{◌+◌, ◌≤◌, ◌≡◌, length};
ghost use Rattle.scs_blocks.specs.declared.ScsPart.TheVariants.{Stands};
ghost use Rattle.scs_blocks.specs.ScsBlocks.{size_at, is_there, part_of, noted, three_seen, scs_blocks, data_of, zero_filled};

use numbers::{FileFault, Refusal};

// Where the data of a block stand.
#[derive(Clone, Copy)]
pub enum ScsPart {
    Absent,
    Stands { from: usize, size: usize },
}

// What was seen of the three blocks that are read.
#[derive(Clone, Copy)]
pub struct ScsSeen {
    pub cpu: ScsPart,
    pub ports: ScsPart,
    pub memory: ScsPart,
}

#[derive(Clone, Copy)]
pub enum ScsFound {
    Bad(FileFault),
    Blocks(ScsSeen),
}

// The blocks from a place to the end of the file, or to the byte that ends it.
pub fn find_blocks(file: &[u8], from: usize) -> ScsFound
    ensures { result ≡ scs_blocks file.now from }
{
    let mut seen = ScsSeen {
        cpu: ScsPart::Absent,
        ports: ScsPart::Absent,
        memory: ScsPart::Absent,
    };
    let mut place = from;
    while place < file.len() {
        let number = file[place];
        if number == 0 {
            return ScsFound::Blocks(seen);
        }
        let left = file.len() - place;
        if left < 5 {
            let why = Refusal::BlockCut;
            return ScsFound::Bad(numbers::in_block(why, place, 0));
        }
        let size = size_at(file, place + 1);
        if left - 5 < size {
            let why = Refusal::BlockCut;
            return ScsFound::Bad(numbers::in_block(why, place, 0));
        }
        let part = part_of(seen, number);
        if is_there(part) {
            let why = Refusal::ScsBlockTwice;
            return ScsFound::Bad(numbers::in_block(why, place, 0));
        }
        seen = note(seen, number, place + 5, size);
        place = place + 5 + size;
    }
    ScsFound::Blocks(seen)
}

fn size_at(s: &[u8], i: usize) -> usize
    requires { i + 4 ≤ length s.now }
    ensures { result ≡ size_at s.now i }
{
    slices::wide(s[i])
        + 256 * slices::wide(s[i + 1])
        + 65536 * slices::wide(s[i + 2])
        + 16777216 * slices::wide(s[i + 3])
}

fn is_there(part: ScsPart) -> bool
    ensures { result ≡ is_there part }
{
    match part {
        ScsPart::Absent => false,
        ScsPart::Stands { from: _, size: _ } => true,
    }
}

// Whether all three blocks were seen.
pub fn saw_all(seen: ScsSeen) -> bool
    ensures { result ≡ three_seen seen }
{
    let cpu = seen.cpu;
    let ports = seen.ports;
    let memory = seen.memory;
    slices::and(
        is_there(cpu),
        slices::and(is_there(ports), is_there(memory)),
    )
}

// The data of a block, as a part of the file; an empty part where there is no such block.
pub fn data_of<'a>(file: &'a [u8], part: ScsPart) -> &'a [u8]
    ensures { result.now ≡ data_of file.now part }
{
    match part {
        ScsPart::Absent => return &file[0..0],
        ScsPart::Stands { from, size } => {
            let start = slices::least(from, file.len());
            let end = start + slices::least(size, file.len() - start);
            return &file[start..end];
        }
    }
}

// What was seen of the block with this number.
fn part_of(seen: ScsSeen, number: u8) -> ScsPart
    ensures { result ≡ part_of seen number }
{
    match number {
        1 => seen.cpu,
        2 => seen.ports,
        3 => seen.memory,
        _ => ScsPart::Absent,
    }
}

// The block with this number seen too.
fn note(seen: ScsSeen, number: u8, from: usize, size: usize) -> ScsSeen
    ensures { result ≡ noted seen number (Stands from size) }
{
    let cpu = seen.cpu;
    let ports = seen.ports;
    let memory = seen.memory;
    let part = ScsPart::Stands { from, size };
    match number {
        1 => ScsSeen {
            cpu: part,
            ports: ports,
            memory: memory,
        },
        2 => ScsSeen {
            cpu: cpu,
            ports: part,
            memory: memory,
        },
        3 => ScsSeen {
            cpu: cpu,
            ports: ports,
            memory: part,
        },
        _ => seen,
    }
}

// The bytes that are due of a block's data: what is missing is zero, what is too much is left out.
pub fn fill_from(src: &[u8], dst: &mut [u8])
    ensures { dst.new ≡ zero_filled (length dst.old) src.now }
{
    let n = slices::least(src.len(), dst.len());
    dst[..n].copy_from_slice(&src[..n]);
    slices::clear_from(dst, n);
}
