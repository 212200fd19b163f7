// Explaining and reading of one file, as a C program calls them: the number and the offset of both are the same.
#![tactic(auto)]

ghost use Rattle.std.specs.Prelude.{length};
ghost use Rattle.explained_reads.specs.ExplainedReads.{ExplainsReading};

use numbers::TwoNumbers;

// One file explained, and then read.
pub fn explain_then_read(
    file: &[u8],
    offset: &mut u64,
    block: &mut u64,
    found: &mut u64,
    due: &mut u64,
    area: &mut [u8],
    head: &mut [u8],
    offset2: &mut u64,
) -> TwoNumbers
    ensures { ExplainsReading file.now (length area.old) (length head.old) result offset.new block.new found.new due.new offset2.new area.new head.new }
{
    let explained = snapshot::snap_z80_explain(file, offset, block, found, due);
    let read = snapshot::snap_z80_read(file, area, head, offset2);
    TwoNumbers {
        one: explained,
        other: read,
    }
}
