// The blocks of a v2 or v3 file read into the pages of a lent area, or without one, one after the other.
#![tactic(auto)]

ghost use Rattle.std.specs.Prelude.{◌<◌, ◌≡◌, length, drop};
ghost use Rattle.slices.specs.Blank.{blank};
ghost use Rattle.numbers.specs.Faults.{fault_in, length_fault, missing};
ghost use Rattle.block_pages.specs.Numbered.{pages_seen, pages_due};
ghost use Rattle.block_read.specs.Block.{ordinal};
ghost use Rattle.blocks.specs.Blocks.{blocks_into, body_refused, ZerosLent, ReadsBody};
ghost use Rattle.blocks.specs.declared.BlockStep.TheVariants.{Failed};
ghost use Rattle.blocks.specs.Inner.{FillsOwn, StepSays};

use block_read::BlockHead;
use numbers::{FileFault, Refusal};
use packed::Unpacked;
use pages::Model;

// What reading the body of a file comes to.
#[derive(Clone, Copy)]
pub enum BodyAnswer {
    Whole,
    Faulty(FileFault),
}

// Where the next block begins, or a fault.
#[derive(Clone, Copy)]
enum BlockStep {
    Failed(FileFault),
    Next { page: usize, at: usize },
}

// Block after block from a place to the end of the file, into an area of zeros, or without one. Refused, the area is all zero.
pub fn read_blocks(file: &[u8], from: usize, model: Model, area: &mut [u8]) -> BodyAnswer
    requires { ZerosLent area.old }
    ensures { ReadsBody (blocks_into model (blank 131072) from (drop from file.now)) (length area.old) result area.new }
{
    let mut seen = [false; 8];
    let mut at = from;
    while at < file.len() {
        match read_block(file, at, model, seen, area) {
            BlockStep::Failed(fault) => return refused_area(area, fault),
            BlockStep::Next { page, at: next } => {
                seen[page] = true;
                at = next;
            }
        }
    }
    if block_pages::all_there(model, seen) {
        return BodyAnswer::Whole;
    }
    refused_area(area, missing_blocks(model, seen))
}

fn refused_area(area: &mut [u8], fault: FileFault) -> BodyAnswer
    ensures { ReadsBody (body_refused fault) (length area.old) result area.new }
{
    slices::fill(area, 0);
    BodyAnswer::Faulty(fault)
}

fn missing_blocks(model: Model, seen: [bool; 8]) -> FileFault
    ensures { result ≡ missing (pages_seen seen) (pages_due model) }
{
    let good = block_pages::pages_seen(seen);
    let due = block_pages::pages_due(model);
    numbers::figured(Refusal::BlockMissing, good, due)
}

// Which block follows those whose pages were seen, from 1 on.
fn ordinal_of(seen: [bool; 8]) -> usize
    ensures { result ≡ ordinal seen }
{
    block_pages::pages_seen(seen) + 1
}

fn failed(why: Refusal, place: usize, seen: [bool; 8]) -> BlockStep
    ensures { result ≡ Failed (fault_in (ordinal seen) place why) }
{
    BlockStep::Failed(numbers::in_block(why, place, ordinal_of(seen)))
}

fn failed_length(place: usize, seen: [bool; 8], found: usize) -> BlockStep
    ensures { result ≡ Failed (length_fault (ordinal seen) place found 16384) }
{
    BlockStep::Failed(numbers::length_fault(place, ordinal_of(seen), found, 16384))
}

// The block at a place of the file, read into its own part of the area, where there is one.
fn read_block(file: &[u8], at: usize, model: Model, seen: [bool; 8], area: &mut [u8]) -> BlockStep
    requires { at < length file.now }
    ensures { StepSays model seen file.now at area.old area.new result }
{
    match block_read::head_at(file, at, model, seen) {
        BlockHead::Bad(why) => failed(why, at, seen),
        BlockHead::Data {
            page,
            start,
            end,
            plain,
        } => {
            let filled = fill_own(&file[start..end], plain, page, area);
            match filled {
                Unpacked::Good => BlockStep::Next { page, at: end },
                Unpacked::Malformed(i) => failed(Refusal::MalformedData, start + i, seen),
                Unpacked::WrongLength(n) => failed_length(at, seen, n),
            }
        }
    }
}

// A block's data into the page's own part of the area; without an area, the answer alone.
fn fill_own(src: &[u8], plain: bool, page: usize, area: &mut [u8]) -> Unpacked
    requires { page < 8 }
    ensures { FillsOwn plain src.now page area.old area.new result }
{
    if area.len() == 131072 {
        let base = page * 16384;
        let top = base + 16384;
        return block_read::fill_page(src, plain, &mut area[base..top]);
    }
    block_read::would_fill(src, plain, 16384)
}
