// Demand 1 of the functions that a C program calls: each call made twice on buffers that differ only in what is to be overwritten.
#![tactic(auto)]

ghost use Rattle.std.specs.Prelude.{length};
ghost use Rattle.file_bytes.specs.Files.{read_of_bytes, write_of_bytes};
ghost use Rattle.files_twice.specs.FilesTwice.{ReadsTwo, WritesTwo};

use numbers::TwoNumbers;

// One file read into two areas, two headers and two offsets.
pub fn read_two(
    file: &[u8],
    area: &mut [u8],
    head: &mut [u8],
    offset: &mut u64,
    area2: &mut [u8],
    head2: &mut [u8],
    offset2: &mut u64,
) -> TwoNumbers
    ensures { ReadsTwo (read_of_bytes file.now) (length area.old) (length head.old) (length area2.old) (length head2.old) result offset.new area.new head.new offset2.new area2.new head2.new }
{
    let read = snapshot::snap_z80_read(file, area, head, offset);
    let again = snapshot::snap_z80_read(file, area2, head2, offset2);
    TwoNumbers {
        one: read,
        other: again,
    }
}

// One machine and area written into two outputs.
pub fn write_two(
    head: &[u8],
    area: &[u8],
    out: &mut [u8],
    size: &mut u64,
    out2: &mut [u8],
    size2: &mut u64,
) -> TwoNumbers
    ensures { WritesTwo (write_of_bytes head.now area.now) (length out.old) (length out2.old) result out.new size.new out2.new size2.new }
{
    let first = snapshot::snap_z80_write(head, area, out, size);
    let second = snapshot::snap_z80_write(head, area, out2, size2);
    TwoNumbers {
        one: first,
        other: second,
    }
}
