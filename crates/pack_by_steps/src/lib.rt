// Packing: steps, to the end. The step is `pack_step::pack_step`, and `packing::pack` promises the same.
#![tactic(auto)]

ghost use Rattle.std.specs.Prelude.{◌≤◌, ◌<◌, ◌≡◌, length, replicate};
ghost use Rattle.packed.specs.Packed.{packed};
ghost use Rattle.packed.specs.Packing.{Packs};
ghost use Rattle.packed.specs.declared.Fit.TheVariants.{TooShort};
ghost use Rattle.runs.specs.Inner.{RunLeft};
ghost use Rattle.pack_step.specs.Stepping.{pack_step_at};
ghost use Rattle.pack_by_steps.specs.Inner.{PlainSteps, StepWithin};

use pack_step::{MadeStep, pack_step};
use packed::Fit;
use runs::run_from;
use stretches::{Stop, copy16};

// src packed into dst, with zeros after it; all zero where dst is too short.
pub fn pack_by_steps(src: &[u8], dst: &mut [u8]) -> Fit
    ensures { Packs (packed src.now) (length dst.old) result dst.new }
{
    let mut i: usize = 0;
    let mut o: usize = 0;
    while i < src.len() {
        // a stretch of case 4, then a step, unless the stretch may go on
        let stretch = plain_stretch(src, i, dst, o);
        let k = stretch.at;
        i += k;
        o += k;
        if k < 16 {
            let n = run_from(src, i, stretch.unlike);
            let made = step_within(src, i, n, dst, o);
            i += made.taken;
            o += made.size;
            if dst.len() < o {
                return refused_pack(dst);
            }
        }
    }
    slices::clear_from(dst, o);
    Fit::Length(o)
}

// For speed alone; a reader may skip it: up to 16 steps of case 4, made at once. It stops where another case may hold; near the end of src
// or dst it makes none. What it saw of the bytes after them helps to measure the run there.
pub fn plain_stretch(src: &[u8], i: usize, dst: &mut [u8], o: usize) -> Stop
    requires { (i < length src.now) × (o ≤ length dst.old) }
    ensures { PlainSteps src.now i dst.old o result dst.new }
{
    if i + 20 <= src.len() {
        if o + 20 <= dst.len() {
            return copy16(src, i, dst, o);
        }
    }
    Stop { at: 0, unlike: 0 }
}

// A step, written where there is room for it, and told in any case: near the end of dst it goes into four bytes of its own first.
fn step_within(src: &[u8], i: usize, n: usize, dst: &mut [u8], o: usize) -> MadeStep
    requires { (i < length src.now) × (RunLeft src.now i n × (o ≤ length dst.old)) }
    ensures { StepWithin (pack_step_at src.now i) dst.old o result dst.new }
{
    if o + 4 <= dst.len() {
        return pack_step(src, i, n, dst, o);
    }
    let mut code = [0u8; 4];
    let made = pack_step(src, i, n, &mut code, 0);
    let size = made.size;
    if dst.len() < o + size {
        return made;
    }
    slices::put_at(dst, o, &code[0..size]);
    made
}

fn refused_pack(dst: &mut [u8]) -> Fit
    ensures { (result ≡ TooShort) × (dst.new ≡ replicate (length dst.old) 0) }
{
    slices::fill(dst, 0);
    Fit::TooShort
}
