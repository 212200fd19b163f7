// Demand 3 of the functions that a C program calls, from a file that was opened.
#![tactic(auto)]

ghost use Rattle.std.specs.Prelude.{length};
ghost use Rattle.z80read.specs.Read.{read_of};
ghost use Rattle.scs_read.specs.ScsReads.{scs_read_of};
ghost use Rattle.journal.specs.Journal.{start_of};
ghost use Rattle.file_bytes.specs.Files.{read_of_bytes};
ghost use Rattle.scs_bytes.specs.ScsBytes.{scs_read_of_bytes};
ghost use Rattle.journal_bytes.specs.Calls.{buffers_out};
ghost use Rattle.server_files.specs.Opened.{ServesFile};

// A file read by the exported function, then every call of a list: where the file is accepted, all is the paper bench's from the
// machine and memory that it gives.
pub fn serve_file(
    file: &[u8],
    head: &mut [u8],
    area: &mut [u8],
    offset: &mut u64,
    log: &mut [u8],
    standing: &mut u64,
    total: &mut u64,
    calls: &[u8],
    numbers: &mut [u8],
) -> u32
    ensures { ServesFile (read_of_bytes file.now (length area.old) (length head.old)) (start_of (read_of file.now (length area.old))) log.old calls.now (length numbers.old) result offset.new (buffers_out head area log standing total) numbers.new }
{
    let answer = snapshot::snap_z80_read(file, area, head, offset);
    server::serve(head, area, log, standing, total, calls, numbers);
    answer
}

// The same from an SCS file.
pub fn serve_scs(
    file: &[u8],
    head: &mut [u8],
    area: &mut [u8],
    offset: &mut u64,
    log: &mut [u8],
    standing: &mut u64,
    total: &mut u64,
    calls: &[u8],
    said: &mut [u8],
) -> u32
    ensures { ServesFile (scs_read_of_bytes file.now (length area.old) (length head.old)) (start_of (scs_read_of file.now (length area.old))) log.old calls.now (length said.old) result offset.new (buffers_out head area log standing total) said.new }
{
    let read = snapshot::snap_scs_read(file, area, head, offset);
    server::serve(head, area, log, standing, total, calls, said);
    read
}
