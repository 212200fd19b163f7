// The steps of the correction log, eleven bytes each: how many there is room for, read, written.
#![tactic(auto)]

ghost use Rattle.std.specs.Prelude.{◌+◌, ◌*◌, ◌≤◌, ◌≡◌, length};
ghost use Rattle.log_steps.specs.Steps.{capacity, put_step, step_at};

// A step of the log: eleven bytes.
#[derive(Clone, Copy)]
pub struct Step {
    pub tag: u8,
    pub size: u16,
    pub index: u8,
    pub offset: u16,
    pub old: u16,
    pub new: u16,
    pub last: u8,
}

// How many steps a log holds.
pub fn capacity_of(log: &[u8]) -> usize
    ensures { result ≡ capacity (length log.now) }
{
    let n = log.len() / 11;
    if n <= 4096 {
        return n;
    }
    4096
}

// The step at a number of the log.
pub fn step_at(log: &[u8], k: usize) -> Step
    requires { k * 11 + 11 ≤ length log.now }
    ensures { result ≡ step_at log.now k }
{
    let p = k * 11;
    let size = slices::word_of(log[p + 1], log[p + 2]);
    let offset = slices::word_of(log[p + 4], log[p + 5]);
    let old = slices::word_of(log[p + 6], log[p + 7]);
    let new = slices::word_of(log[p + 8], log[p + 9]);
    Step {
        tag: log[p],
        size: size,
        index: log[p + 3],
        offset: offset,
        old: old,
        new: new,
        last: log[p + 10],
    }
}

// A step written at its number.
pub fn put_step(log: &mut [u8], k: usize, s: Step)
    requires { k * 11 + 11 ≤ length log.old }
    ensures { log.new ≡ put_step log.old k s }
{
    let bytes = [
        s.tag,
        (s.size % 256) as u8,
        (s.size / 256) as u8,
        s.index,
        (s.offset % 256) as u8,
        (s.offset / 256) as u8,
        (s.old % 256) as u8,
        (s.old / 256) as u8,
        (s.new % 256) as u8,
        (s.new / 256) as u8,
        s.last,
    ];
    slices::put_at(log, k * 11, &bytes);
}
