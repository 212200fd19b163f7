// Demand 3 of the functions that a C program calls: a list of calls, as bytes, each made by the exported function.
#![tactic(auto)]

ghost use Rattle.std.specs.Prelude.{length};
ghost use Rattle.journal_bytes.specs.Calls.{buffers_out};
ghost use Rattle.server.specs.Server.{Serves};

// A log is started and every call of a list made, each on the bytes that the last one left. From the header of any valid machine, an
// area of 131,072 bytes and a log of any length, all is the paper bench's: this contract is the claim.
pub fn serve(
    head: &mut [u8],
    area: &mut [u8],
    log: &mut [u8],
    standing: &mut u64,
    total: &mut u64,
    calls: &[u8],
    numbers: &mut [u8],
) -> usize
    ensures { Serves head.old area.old log.old calls.now (length numbers.old) result (buffers_out head area log standing total) numbers.new }
{
    snapshot::snap_log_start(log, standing, total);
    let n = call_list::call_count(calls, numbers.len());
    let mut i = 0;
    while i < n {
        let call = call_list::call_at(calls, i);
        let number = server_calls::call_made(head, area, log, standing, total, call);
        numbers[i] = number as u8;
        i += 1;
    }
    slices::clear_from(numbers, n);
    n
}
