// The calls of the correction log over bytes: the machine crosses as its header. A call takes the header apart, is made by value and puts
// it back.
#![tactic(auto)]

ghost use Rattle.std.specs.Prelude.{◌≡◌, length};
ghost use Rattle.journal_bytes.specs.Calls.{buffers_in, buffers_out, snap_call, CallLeaves, LogStarts};
ghost use Rattle.journal_bytes.specs.Inner.{PutBack};

use five_calls::Call;
use numbers::Refusal;
use session::{Counts, Done};

// A log just started.
pub fn start(log: &mut [u8], standing: &mut u64, total: &mut u64) -> u32
    ensures { LogStarts (length log.old) result log.new standing.new total.new }
{
    let counts = journal::start(log);
    *standing = counts.standing as u64;
    *total = counts.total as u64;
    numbers::number(Ok(()))
}

// Any one call.
pub fn call(
    head: &mut [u8],
    area: &mut [u8],
    log: &mut [u8],
    standing: &mut u64,
    total: &mut u64,
    call: Call,
) -> u32
    ensures { CallLeaves (snap_call call (buffers_in head area log standing total)) result (buffers_out head area log standing total) }
{
    let decoded = header_canonical::decode_header(head);
    if decoded.canonical {
        let m = decoded.machine;
        let n = Counts {
            standing: *standing as usize,
            total: *total as usize,
        };
        let done = journal::call_on(m, area, log, n, call);
        return put_back(head, standing, total, done);
    }
    numbers::number(Err(Refusal::InvalidMachine))
}

// The machine's header, the two numbers and the number of the answer, from what a call gave.
fn put_back(head: &mut [u8], standing: &mut u64, total: &mut u64, done: Done) -> u32
    requires { length head.old ≡ 86 }
    ensures { PutBack done result head.new standing.new total.new }
{
    let m = done.machine;
    let n = done.counts;
    let answer = done.answer;
    header_write::write_header(m, head);
    *standing = n.standing as u64;
    *total = n.total as u64;
    numbers::number(answer)
}
