// Demand 2 of the two functions for SCS files: a file written and read back, and a file read and written.
#![tactic(auto)]

ghost use Rattle.std.specs.Prelude.{length};
ghost use Rattle.scs_trips.specs.ScsTrips.{ScsWritesThenReads, ScsReadsThenWrites};

use server_trips::Trip;

// A header and its area written as SCS, and the file read back into another area and header, with its offset.
pub fn write_then_read_scs(
    head: &[u8],
    area: &[u8],
    out: &mut [u8],
    size: &mut u64,
    area2: &mut [u8],
    head2: &mut [u8],
    offset: &mut u64,
) -> Trip
    ensures { ScsWritesThenReads head.now area.now (length out.old) (length area2.old) (length head2.old) result out.new size.new offset.new area2.new head2.new }
{
    let wrote = snapshot::snap_scs_write(head, area, out, size);
    let n = *size as usize;
    let back = snapshot::snap_scs_read(&out[0..n], area2, head2, offset);
    Trip {
        written: wrote,
        read: back,
    }
}

// An SCS file read, and what it gave written.
pub fn read_then_write_scs(
    file: &[u8],
    area: &mut [u8],
    head: &mut [u8],
    offset: &mut u64,
    out: &mut [u8],
    size: &mut u64,
) -> Trip
    ensures { ScsReadsThenWrites file.now (length area.old) (length head.old) (length out.old) result offset.new area.new head.new out.new size.new }
{
    let read = snapshot::snap_scs_read(file, area, head, offset);
    let written = snapshot::snap_scs_write(head, area, out, size);
    Trip {
        written: written,
        read: read,
    }
}
