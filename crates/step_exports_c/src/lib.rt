// The function of `step_exports` for C, for tests only. It calls the function of its name and promises the same.
#![tactic(auto)]

ghost use Rattle.std.specs.Prelude.{length};
ghost use Rattle.step_exports.specs.ToldSteps.{told_step, TellsStep};

// The case of the step at `at`, 1 to 4; what it writes, and zeros after it; how many bytes that is, and how many they stand for. Zeros
// where `at` is past the data or code has not four bytes.
#[unsafe(no_mangle)]
pub extern "C" fn packing_step(
    src: &[u8],
    at: u64,
    code: &mut [u8],
    size: &mut u64,
    taken: &mut u64,
) -> u32
    ensures { TellsStep (told_step src.now at (length code.old)) (length code.old) result code.new size.new taken.new }
{
    step_exports::packing_step(src, at, code, size, taken)
}
