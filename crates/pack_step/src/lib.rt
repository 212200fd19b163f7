// The packer's step: document 01, "Packed data", its four cases in its order.
#![tactic(auto)]

ghost use Rattle.std.specs.Prelude.{◌+◌, ◌≤◌, ◌<◌, ◌∷◌, [], length, take, drop};
ghost use Rattle.runs.specs.Inner.{RunLeft};
ghost use Rattle.pack_step.specs.PackingSteps.{pack_step};
ghost use Rattle.pack_step.specs.Stepping.{pack_step_at, MakesStep};

// What a step of packing comes to: which of document 01's four cases it took, how many bytes of the data it stands for, and how many it wrote.
#[derive(Clone, Copy)]
pub struct MadeStep {
    pub case: u8,
    pub taken: usize,
    pub size: usize,
}

const ED: u8 = 237;

// One step of packing at i, where n is what is left of the run, counted to 255, so that min(n,255) is n. What it writes, at most four bytes,
// goes into dst from o on. It answers which case it took.
pub fn pack_step(src: &[u8], i: usize, n: usize, dst: &mut [u8], o: usize) -> MadeStep
    requires { (i < length src.now) × (RunLeft src.now i n × (o + 4 ≤ length dst.old)) }
    ensures { MakesStep (pack_step_at src.now i) dst.old o result dst.new }
{
    let x = src[i];
    if x == ED && 2 <= n {
        // "ED with n at least 2: ED ED min(n,255) ED."
        code_made(1, n, ED, dst, o)
    } else if x == ED && n == 1 {
        // "ED with n = 1: ED, and the next byte, if there is one, is written plain."
        two_plain(2, src, i, dst, o)
    } else if x != ED && 5 <= n {
        // "Another byte with n at least 5: ED ED min(n,255) byte."
        code_made(3, n, x, dst, o)
    } else {
        // "Otherwise: one plain byte."
        plain_made(4, x, dst, o)
    }
}

// The code of n times x.
fn code_made(case: u8, n: usize, x: u8, dst: &mut [u8], o: usize) -> MadeStep
    requires { (o + 4 ≤ length dst.old) × (n < 256) }
    ensures { MakesStep (pack_step case (237 ∷ 237 ∷ n ∷ x ∷ []) n) dst.old o result dst.new }
{
    pack_tail::put_run(dst, o, n, x);
    MadeStep {
        case,
        taken: n,
        size: 4,
    }
}

// The byte at i and the next, if there is one, as they are.
fn two_plain(case: u8, src: &[u8], i: usize, dst: &mut [u8], o: usize) -> MadeStep
    requires { (i < length src.now) × (o + 2 ≤ length dst.old) }
    ensures { MakesStep (pack_step case (take 2 (drop i src.now)) (length (take 2 (drop i src.now)))) dst.old o result dst.new }
{
    if src.len() <= i + 1 {
        return plain_made(case, src[i], dst, o);
    }
    stores::put_two(dst, o, src[i], src[i + 1]);
    MadeStep {
        case,
        taken: 2,
        size: 2,
    }
}

// One byte as it is.
fn plain_made(case: u8, x: u8, dst: &mut [u8], o: usize) -> MadeStep
    requires { o < length dst.old }
    ensures { MakesStep (pack_step case (x ∷ []) 1) dst.old o result dst.new }
{
    stores::put_one(dst, o, x);
    MadeStep {
        case,
        taken: 1,
        size: 1,
    }
}
