// Where a step of the log points: whether a correction could have written it, the value that stands there, and another one put there.
#![tactic(auto)]

ghost use Rattle.std.specs.Prelude.{◌≡◌};
ghost use Rattle.step_places.specs.Pointed.{present, placed, is128, tag_intact, intact};

use log_steps::Step;
use pages::Model;
use spectrum::Machine;

fn is_128(model: Model) -> bool
    ensures { result ≡ is128 model }
{
    match model {
        Model::K48 => false,
        Model::K128 => true,
    }
}

// Whether a step is one that a correction could have written on a machine of this model.
pub fn is_intact(model: Model, s: Step) -> bool
    ensures { result ≡ intact model s }
{
    slices::and(s.size == 8, slices::and(s.last == 0, tag_intact(model, s)))
}

fn tag_intact(model: Model, s: Step) -> bool
    ensures { result ≡ tag_intact model s }
{
    let tag = s.tag;
    let small = slices::and(s.old < 256, s.new < 256);
    if tag == 1 {
        let mine = pages::owns(model, s.index as usize);
        return slices::and(mine, slices::and(s.offset < 16384, small));
    }
    if tag == 2 {
        return slices::and(s.index < 12, s.offset == 0);
    }
    let big = is_128(model);
    slices::and(
        tag == 3,
        slices::and(
            big,
            slices::and(s.index == 0, slices::and(s.offset == 0, small)),
        ),
    )
}

// The value where a step points.
pub fn present_at(m: Machine, memory: &[u8], s: Step) -> u16
    ensures { result ≡ present s (record { machine = m; memory = memory.now }) }
{
    let tag = s.tag;
    if tag == 1 {
        let at = (s.index as usize) * 16384 + (s.offset as usize);
        if at < memory.len() {
            return slices::byte_word(memory[at]);
        }
        return 0;
    }
    if tag == 2 {
        return m.pair(s.index as usize);
    }
    slices::byte_word(m.out7ffd)
}

// Another value put where a step points: the page is the step's.
pub fn put_value(m: Machine, memory: &mut [u8], s: Step, v: u16) -> Machine
    ensures { record { machine = result; memory = memory.new } ≡ placed s v (record { machine = m; memory = memory.old }) }
{
    let tag = s.tag;
    if tag == 1 {
        let spot = (s.index as usize) * 16384 + (s.offset as usize);
        if spot < memory.len() {
            memory[spot] = (v % 256) as u8;
        }
        return m;
    }
    if tag == 2 {
        return m.with_pair(s.index as usize, v);
    }
    m.with_out((v % 256) as u8)
}
