// The functions that a C program calls, with numbers and byte buffers: see include/snapshot.h.
#![tactic(auto)]

ghost use Rattle.std.specs.Prelude.{◌≡◌, length};
ghost use Rattle.five_calls.specs.declared.Call.TheVariants.{Byte, Pair, Out, Undo, Redo};
ghost use Rattle.file_bytes.specs.Files.{read_of_bytes, ReadsBytes, write_of_bytes, WritesBytes};
ghost use Rattle.z80explain.specs.Explain.{explain_of};
ghost use Rattle.explain_bytes.specs.Explains.{ExplainsBytes};
ghost use Rattle.scs_bytes.specs.ScsBytes.{scs_read_of_bytes, scs_write_of_bytes};
ghost use Rattle.journal_bytes.specs.Calls.{buffers_in, buffers_out, snap_call, CallLeaves, LogStarts};
ghost use Rattle.view_bytes.specs.Views.{Shows, show_of};
ghost use Rattle.machine_bytes.specs.Looks.{model_of, TellsModel, pair_of, TellsPair, address_of, TellsPlace};
ghost use Rattle.version_number.specs.Version.{library_version};

use five_calls::Call;

// 10000 * major + 100 * minor + patch.
pub fn snap_version() -> u32
    ensures { result ≡ library_version }
{
    version_number::current()
}

// A .Z80 file into an area of 131,072 bytes and a header of 86; the offset in the file that is named with the number, or 0.
pub fn snap_z80_read(file: &[u8], area: &mut [u8], head: &mut [u8], offset: &mut u64) -> u32
    ensures { ReadsBytes (read_of_bytes file.now (length area.old) (length head.old)) result offset.new area.new head.new }
{
    file_bytes::read(file, area, head, offset)
}

// Why a .Z80 file is refused: the number and the offset of reading, the block from 1 on, what was found and what is due.
pub fn snap_z80_explain(
    file: &[u8],
    offset: &mut u64,
    block: &mut u64,
    found: &mut u64,
    due: &mut u64,
) -> u32
    ensures { ExplainsBytes (explain_of file.now) result offset.new block.new found.new due.new }
{
    explain_bytes::explain(file, offset, block, found, due)
}

// A header and its area into the one v3 file.
pub fn snap_z80_write(head: &[u8], area: &[u8], out: &mut [u8], size: &mut u64) -> u32
    ensures { WritesBytes (write_of_bytes head.now area.now (length out.old)) result size.new out.new }
{
    file_bytes::write(head, area, out, size)
}

// An SCS file into an area of 131,072 bytes and a header of 86; the offset in the file that is named with the number, or 0.
pub fn snap_scs_read(file: &[u8], area: &mut [u8], head: &mut [u8], offset: &mut u64) -> u32
    ensures { ReadsBytes (scs_read_of_bytes file.now (length area.old) (length head.old)) result offset.new area.new head.new }
{
    scs_bytes::read(file, area, head, offset)
}

// A header and its area into the one SCS file.
pub fn snap_scs_write(head: &[u8], area: &[u8], out: &mut [u8], size: &mut u64) -> u32
    ensures { WritesBytes (scs_write_of_bytes head.now area.now (length out.old)) result size.new out.new }
{
    scs_bytes::write(head, area, out, size)
}

// Where a page lies: in the ROM or in the area, from which byte on, and how long.
pub fn snap_view(
    head: &[u8],
    rom: &[u8],
    area: &[u8],
    page: u8,
    in_rom: &mut u8,
    start: &mut u64,
    span: &mut u64,
) -> u32
    ensures { Shows (show_of head.now (length rom.now) (length area.now) page) result in_rom.new start.new span.new }
{
    view_bytes::view(head, rom, area, page, in_rom, start, span)
}

// Which model, and what is attached to it.
pub fn snap_model(head: &[u8], kind: &mut u8, attachment: &mut u8) -> u32
    ensures { TellsModel (model_of head.now) result kind.new attachment.new }
{
    machine_bytes::model(head, kind, attachment)
}

// A register pair's value.
pub fn snap_pair(head: &[u8], number: u8, value: &mut u16) -> u32
    ensures { TellsPair (pair_of head.now number) result value.new }
{
    machine_bytes::pair(head, number, value)
}

// Where an address leads as paging is now.
pub fn snap_place(
    head: &[u8],
    address: u16,
    in_rom: &mut u8,
    page: &mut u8,
    offset: &mut u16,
) -> u32
    ensures { TellsPlace (address_of head.now address) result in_rom.new page.new offset.new }
{
    machine_bytes::place(head, address, in_rom, page, offset)
}

// A log just started.
pub fn snap_log_start(log: &mut [u8], standing: &mut u64, total: &mut u64) -> u32
    ensures { LogStarts (length log.old) result log.new standing.new total.new }
{
    journal_bytes::start(log, standing, total)
}

// A byte at an address corrected.
pub fn snap_correct_byte(
    head: &mut [u8],
    area: &mut [u8],
    log: &mut [u8],
    standing: &mut u64,
    total: &mut u64,
    address: u16,
    value: u8,
) -> u32
    ensures { CallLeaves (snap_call (Byte address value) (buffers_in head area log standing total)) result (buffers_out head area log standing total) }
{
    journal_bytes::call(head, area, log, standing, total, Call::Byte(address, value))
}

// A register pair corrected.
pub fn snap_correct_pair(
    head: &mut [u8],
    area: &mut [u8],
    log: &mut [u8],
    standing: &mut u64,
    total: &mut u64,
    pair: u8,
    value: u16,
) -> u32
    ensures { CallLeaves (snap_call (Pair pair value) (buffers_in head area log standing total)) result (buffers_out head area log standing total) }
{
    journal_bytes::call(head, area, log, standing, total, Call::Pair(pair, value))
}

// The last OUT to 7FFD corrected.
pub fn snap_correct_out(
    head: &mut [u8],
    area: &mut [u8],
    log: &mut [u8],
    standing: &mut u64,
    total: &mut u64,
    value: u8,
) -> u32
    ensures { CallLeaves (snap_call (Out value) (buffers_in head area log standing total)) result (buffers_out head area log standing total) }
{
    journal_bytes::call(head, area, log, standing, total, Call::Out(value))
}

// The last standing correction taken back.
pub fn snap_undo(
    head: &mut [u8],
    area: &mut [u8],
    log: &mut [u8],
    standing: &mut u64,
    total: &mut u64,
) -> u32
    ensures { CallLeaves (snap_call Undo (buffers_in head area log standing total)) result (buffers_out head area log standing total) }
{
    journal_bytes::call(head, area, log, standing, total, Call::Undo)
}

// The first waiting correction made again.
pub fn snap_redo(
    head: &mut [u8],
    area: &mut [u8],
    log: &mut [u8],
    standing: &mut u64,
    total: &mut u64,
) -> u32
    ensures { CallLeaves (snap_call Redo (buffers_in head area log standing total)) result (buffers_out head area log standing total) }
{
    journal_bytes::call(head, area, log, standing, total, Call::Redo)
}
