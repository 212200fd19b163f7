// The frame clock: the position of two counters, and the counters at a position.
#![tactic(auto)]

ghost use Rattle.std.specs.Prelude.{◌-◌, ◌≡◌};
ghost use Rattle.clock.specs.Clock.{position_of, low_of, high_of, clock_end};

use pages::Model;

// A frame position is below this.
pub fn clock_end(model: Model) -> u32
    ensures { result ≡ clock_end model }
{
    match model {
        Model::K48 => 69888,
        Model::K128 => 70908,
    }
}

// a less b, and 0 where b is the greater.
fn less(a: u32, b: u32) -> u32
    ensures { result ≡ a - b }
{
    if a < b { 0 } else { a - b }
}

// The frame position for two counters.
pub fn position(model: Model, low: u16, high: u8) -> u32
    ensures { result ≡ position_of model low high }
{
    let turn = (high as u32 + 1) % 4;
    let back = low as u32;
    match model {
        Model::K48 => turn * 17472 + less(17471, back),
        Model::K128 => turn * 17727 + less(17726, back),
    }
}

// The low counter at a frame position.
pub fn low_counter(model: Model, position: u32) -> u32
    ensures { result ≡ low_of model position }
{
    match model {
        Model::K48 => 17471 - position % 17472,
        Model::K128 => 17726 - position % 17727,
    }
}

// The high counter at a frame position.
pub fn high_counter(model: Model, position: u32) -> u32
    ensures { result ≡ high_of model position }
{
    match model {
        Model::K48 => (position / 17472 + 3) % 4,
        Model::K128 => (position / 17727 + 3) % 4,
    }
}
