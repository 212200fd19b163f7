// The functions of `snapshot` for C: see include/snapshot.h. Each calls the function of its name and promises the same.
#![tactic(auto)]

ghost use Rattle.std.specs.Prelude.{◌≡◌, length};
ghost use Rattle.five_calls.specs.declared.Call.TheVariants.{Byte, Pair, Out, Undo, Redo};
ghost use Rattle.file_bytes.specs.Files.{read_of_bytes, ReadsBytes, write_of_bytes, WritesBytes};
ghost use Rattle.z80explain.specs.Explain.{explain_of};
ghost use Rattle.explain_bytes.specs.Explains.{ExplainsBytes};
ghost use Rattle.scs_bytes.specs.ScsBytes.{scs_read_of_bytes, scs_write_of_bytes};
ghost use Rattle.journal_bytes.specs.Calls.{buffers_in, buffers_out, snap_call, CallLeaves, LogStarts};
ghost use Rattle.view_bytes.specs.Views.{Shows, show_of};
ghost use Rattle.machine_bytes.specs.Looks.{model_of, TellsModel, pair_of, TellsPair, address_of, TellsPlace};
ghost use Rattle.version_number.specs.Version.{library_version};

// 10000 * major + 100 * minor + patch.
#[unsafe(no_mangle)]
pub extern "C" fn snap_version() -> u32
    ensures { result ≡ library_version }
{
    snapshot::snap_version()
}

// A .Z80 file into an area of 131,072 bytes and a header of 86; the offset in the file that is named with the number, or 0.
#[unsafe(no_mangle)]
pub extern "C" fn snap_z80_read(
    file: &[u8],
    area: &mut [u8],
    head: &mut [u8],
    offset: &mut u64,
) -> u32
    ensures { ReadsBytes (read_of_bytes file.now (length area.old) (length head.old)) result offset.new area.new head.new }
{
    snapshot::snap_z80_read(file, area, head, offset)
}

// Why a .Z80 file is refused: the number and the offset of reading, the block from 1 on, what was found and what is due.
#[unsafe(no_mangle)]
pub extern "C" fn snap_z80_explain(
    file: &[u8],
    offset: &mut u64,
    block: &mut u64,
    found: &mut u64,
    due: &mut u64,
) -> u32
    ensures { ExplainsBytes (explain_of file.now) result offset.new block.new found.new due.new }
{
    snapshot::snap_z80_explain(file, offset, block, found, due)
}

// A header and its area into the one v3 file.
#[unsafe(no_mangle)]
pub extern "C" fn snap_z80_write(head: &[u8], area: &[u8], out: &mut [u8], size: &mut u64) -> u32
    ensures { WritesBytes (write_of_bytes head.now area.now (length out.old)) result size.new out.new }
{
    snapshot::snap_z80_write(head, area, out, size)
}

// An SCS file into an area of 131,072 bytes and a header of 86; the offset in the file that is named with the number, or 0.
#[unsafe(no_mangle)]
pub extern "C" fn snap_scs_read(
    file: &[u8],
    area: &mut [u8],
    head: &mut [u8],
    offset: &mut u64,
) -> u32
    ensures { ReadsBytes (scs_read_of_bytes file.now (length area.old) (length head.old)) result offset.new area.new head.new }
{
    snapshot::snap_scs_read(file, area, head, offset)
}

// A header and its area into the one SCS file.
#[unsafe(no_mangle)]
pub extern "C" fn snap_scs_write(head: &[u8], area: &[u8], out: &mut [u8], size: &mut u64) -> u32
    ensures { WritesBytes (scs_write_of_bytes head.now area.now (length out.old)) result size.new out.new }
{
    snapshot::snap_scs_write(head, area, out, size)
}

// Where a page lies: in the ROM or in the area, from which byte on, and how long.
#[unsafe(no_mangle)]
pub extern "C" fn snap_view(
    head: &[u8],
    rom: &[u8],
    area: &[u8],
    page: u8,
    in_rom: &mut u8,
    start: &mut u64,
    span: &mut u64,
) -> u32
    ensures { Shows (show_of head.now (length rom.now) (length area.now) page) result in_rom.new start.new span.new }
{
    snapshot::snap_view(head, rom, area, page, in_rom, start, span)
}

// Which model, and what is attached to it.
#[unsafe(no_mangle)]
pub extern "C" fn snap_model(head: &[u8], kind: &mut u8, attachment: &mut u8) -> u32
    ensures { TellsModel (model_of head.now) result kind.new attachment.new }
{
    snapshot::snap_model(head, kind, attachment)
}

// A register pair's value.
#[unsafe(no_mangle)]
pub extern "C" fn snap_pair(head: &[u8], number: u8, value: &mut u16) -> u32
    ensures { TellsPair (pair_of head.now number) result value.new }
{
    snapshot::snap_pair(head, number, value)
}

// Where an address leads as paging is now.
#[unsafe(no_mangle)]
pub extern "C" fn snap_place(
    head: &[u8],
    address: u16,
    in_rom: &mut u8,
    page: &mut u8,
    offset: &mut u16,
) -> u32
    ensures { TellsPlace (address_of head.now address) result in_rom.new page.new offset.new }
{
    snapshot::snap_place(head, address, in_rom, page, offset)
}

// A log just started.
#[unsafe(no_mangle)]
pub extern "C" fn snap_log_start(log: &mut [u8], standing: &mut u64, total: &mut u64) -> u32
    ensures { LogStarts (length log.old) result log.new standing.new total.new }
{
    snapshot::snap_log_start(log, standing, total)
}

// A byte at an address corrected.
#[unsafe(no_mangle)]
pub extern "C" fn snap_correct_byte(
    head: &mut [u8],
    area: &mut [u8],
    log: &mut [u8],
    standing: &mut u64,
    total: &mut u64,
    address: u16,
    value: u8,
) -> u32
    ensures { CallLeaves (snap_call (Byte address value) (buffers_in head area log standing total)) result (buffers_out head area log standing total) }
{
    snapshot::snap_correct_byte(head, area, log, standing, total, address, value)
}

// A register pair corrected.
#[unsafe(no_mangle)]
pub extern "C" fn snap_correct_pair(
    head: &mut [u8],
    area: &mut [u8],
    log: &mut [u8],
    standing: &mut u64,
    total: &mut u64,
    pair: u8,
    value: u16,
) -> u32
    ensures { CallLeaves (snap_call (Pair pair value) (buffers_in head area log standing total)) result (buffers_out head area log standing total) }
{
    snapshot::snap_correct_pair(head, area, log, standing, total, pair, value)
}

// The last OUT to 7FFD corrected.
#[unsafe(no_mangle)]
pub extern "C" fn snap_correct_out(
    head: &mut [u8],
    area: &mut [u8],
    log: &mut [u8],
    standing: &mut u64,
    total: &mut u64,
    value: u8,
) -> u32
    ensures { CallLeaves (snap_call (Out value) (buffers_in head area log standing total)) result (buffers_out head area log standing total) }
{
    snapshot::snap_correct_out(head, area, log, standing, total, value)
}

// The last standing correction taken back.
#[unsafe(no_mangle)]
pub extern "C" fn snap_undo(
    head: &mut [u8],
    area: &mut [u8],
    log: &mut [u8],
    standing: &mut u64,
    total: &mut u64,
) -> u32
    ensures { CallLeaves (snap_call Undo (buffers_in head area log standing total)) result (buffers_out head area log standing total) }
{
    snapshot::snap_undo(head, area, log, standing, total)
}

// The first waiting correction made again.
#[unsafe(no_mangle)]
pub extern "C" fn snap_redo(
    head: &mut [u8],
    area: &mut [u8],
    log: &mut [u8],
    standing: &mut u64,
    total: &mut u64,
) -> u32
    ensures { CallLeaves (snap_call Redo (buffers_in head area log standing total)) result (buffers_out head area log standing total) }
{
    snapshot::snap_redo(head, area, log, standing, total)
}
