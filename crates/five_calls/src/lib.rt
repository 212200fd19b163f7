// The five calls of the correction log by their kind, once a call is sound: each is a correction, an undo or a redo.
#![tactic(auto)]

ghost use Rattle.std.specs.Prelude.{◌≡◌};
ghost use Rattle.session.specs.Session.{session_on, result_of};
ghost use Rattle.log_steps.specs.Inner.{Ready};
ghost use Rattle.five_calls.specs.FiveCalls.{called};

use session::{Counts, Done};
use spectrum::Machine;

#[derive(Clone, Copy)]
pub enum Call {
    Byte(u16, u8),
    Pair(u8, u16),
    Out(u8),
    Undo,
    Redo,
}

pub fn sound_call(
    m: Machine,
    memory: &mut [u8],
    log: &mut [u8],
    n: Counts,
    capacity: usize,
    call: Call,
) -> Done
    requires { Ready memory.old log.old n capacity }
    ensures { result_of result memory.new log.new ≡ called call (session_on m memory.old log.old n) }
{
    match call {
        Call::Byte(address, v) => {
            return byte_correction::correct_byte(m, memory, log, n, capacity, address, v);
        }
        Call::Pair(p, v) => return corrections::correct_pair(m, memory, log, n, capacity, p, v),
        Call::Out(v) => return corrections::correct_out(m, memory, log, n, capacity, v),
        Call::Undo => return undo::undo(m, memory, log, n, capacity),
        Call::Redo => return undo::redo(m, memory, log, n, capacity),
    }
}
