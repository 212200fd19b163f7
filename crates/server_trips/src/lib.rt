// Demand 2 of the functions that a C program calls: a file written and read back.
#![tactic(auto)]

ghost use Rattle.std.specs.Prelude.{length};
ghost use Rattle.server_trips.specs.Trips.{WritesThenReads};

// The numbers of a write and of a read.
#[derive(Clone, Copy)]
pub struct Trip {
    pub written: u32,
    pub read: u32,
}

// A header and its area written, and the file read back into another area and header, with its offset.
pub fn write_then_read(
    head: &[u8],
    area: &[u8],
    out: &mut [u8],
    size: &mut u64,
    area2: &mut [u8],
    head2: &mut [u8],
    offset: &mut u64,
) -> Trip
    ensures { WritesThenReads head.now area.now (length out.old) (length area2.old) (length head2.old) result out.new size.new offset.new area2.new head2.new }
{
    let wrote = snapshot::snap_z80_write(head, area, out, size);
    let n = *size as usize;
    let back = snapshot::snap_z80_read(&out[0..n], area2, head2, offset);
    Trip {
        written: wrote,
        read: back,
    }
}
