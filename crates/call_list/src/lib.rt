// A list of calls as bytes, four to a call: how many there are, and the call at a number.
#![tactic(auto)]

ghost use Rattle.std.specs.Prelude.{◌+◌, ◌*◌, ◌≤◌, ◌≡◌, length};
ghost use Rattle.call_list.specs.CallList.{call_at, call_count};

use five_calls::Call;

// How many calls are made.
pub fn call_count(calls: &[u8], room: usize) -> usize
    ensures { result ≡ call_count calls.now room }
{
    slices::least(calls.len() / 4, room)
}

// The call at a number of the list.
pub fn call_at(calls: &[u8], i: usize) -> Call
    requires { i * 4 + 4 ≤ length calls.now }
    ensures { result ≡ call_at calls.now i }
{
    let at = i * 4;
    let kind = calls[at];
    let a = calls[at + 1];
    let b = calls[at + 2];
    let c = calls[at + 3];
    let w = slices::word_of(a, b);
    if kind == 0 {
        return Call::Byte(w, c);
    }
    if kind == 1 {
        return Call::Pair(c, w);
    }
    if kind == 2 {
        return Call::Out(a);
    }
    if kind == 3 {
        return Call::Undo;
    }
    Call::Redo
}
