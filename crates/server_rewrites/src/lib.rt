// Demand 2 of the functions that a C program calls: a file read and written.
#![tactic(auto)]

ghost use Rattle.std.specs.Prelude.{length};
ghost use Rattle.server_rewrites.specs.Rewrites.{ReadsThenWrites};

use server_trips::Trip;

// A file read, and what it gave written.
pub fn read_then_write(
    file: &[u8],
    area: &mut [u8],
    head: &mut [u8],
    offset: &mut u64,
    out: &mut [u8],
    size: &mut u64,
) -> Trip
    ensures { ReadsThenWrites file.now (length area.old) (length head.old) (length out.old) result offset.new area.new head.new out.new size.new }
{
    let read = snapshot::snap_z80_read(file, area, head, offset);
    let written = snapshot::snap_z80_write(head, area, out, size);
    Trip {
        written: written,
        read: read,
    }
}
