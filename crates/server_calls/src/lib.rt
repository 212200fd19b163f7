// One call of the correction log, by the function that a C program calls.
#![tactic(auto)]

ghost use Rattle.journal_bytes.specs.Calls.{buffers_in, buffers_out};
ghost use Rattle.server_calls.specs.Made.{CallMade};

use five_calls::Call;

// One call, by the exported function. Refused, nothing is changed.
pub fn call_made(
    head: &mut [u8],
    area: &mut [u8],
    log: &mut [u8],
    standing: &mut u64,
    total: &mut u64,
    call: Call,
) -> u32
    ensures { CallMade call (buffers_in head area log standing total) result (buffers_out head area log standing total) }
{
    match call {
        Call::Byte(address, v) => {
            snapshot::snap_correct_byte(head, area, log, standing, total, address, v)
        }
        Call::Pair(p, v) => snapshot::snap_correct_pair(head, area, log, standing, total, p, v),
        Call::Out(v) => snapshot::snap_correct_out(head, area, log, standing, total, v),
        Call::Undo => snapshot::snap_undo(head, area, log, standing, total),
        Call::Redo => snapshot::snap_redo(head, area, log, standing, total),
    }
}
