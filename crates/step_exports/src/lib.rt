// The packer's step, told under a C name, for tests only.
#![tactic(auto)]

ghost use Rattle.std.specs.Prelude.{length, replicate};
ghost use Rattle.pack_step.specs.Stepping.{MakesStep};
ghost use Rattle.step_exports.specs.ToldSteps.{told_step, TellsStep};

use pack_step::{MadeStep, pack_step};
use runs::run_at;

// The case of the step at `at`, 1 to 4; what it writes, and zeros after it; how many bytes that is, and how many they stand for. Zeros
// where `at` is past the data or code has not four bytes.
pub fn packing_step(src: &[u8], at: u64, code: &mut [u8], size: &mut u64, taken: &mut u64) -> u32
    ensures { TellsStep (told_step src.now at (length code.old)) (length code.old) result code.new size.new taken.new }
{
    let made = tell_step(src, at, code);
    *size = made.size as u64;
    *taken = made.taken as u64;
    made.case as u32
}

fn tell_step(src: &[u8], at: u64, code: &mut [u8]) -> MadeStep
    ensures { MakesStep (told_step src.now at (length code.old)) (replicate (length code.old) 0) 0 result code.new }
{
    slices::fill(code, 0);
    if code.len() == 4 {
        if at < src.len() as u64 {
            let i = at as usize;
            return pack_step(src, i, run_at(src, i), code, 0);
        }
    }
    MadeStep {
        case: 0,
        taken: 0,
        size: 0,
    }
}
