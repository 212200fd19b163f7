// A page as a block of a file, packed where that is shorter.
#![tactic(auto)]

ghost use Rattle.std.specs.Prelude.{◌/◌, ◌%◌, ◌≤◌, ◌<◌, ◌≡◌, ◌∷◌, length, drop};
ghost use Rattle.packed.specs.Packing.{Packs};
ghost use Rattle.block_write.specs.BlockFor.{block_for};

use packed::Fit;

// A page's block into out, with zeros after it: packed where that is shorter than 16,384 bytes, in one pass. All zero where out is
// too short.
pub fn write_block(page: &[u8], number: u8, out: &mut [u8]) -> Fit
    requires { length page.now ≡ 16384 }
    ensures { Packs (block_for number page.now) (length out.old) result out.new }
{
    if out.len() < 3 {
        slices::fill(out, 0);
        return Fit::TooShort;
    }
    let room = out.len() - 3;
    let end = 3 + slices::least(room, 16383);
    let fit = packing::pack(page, &mut out[3..end]);
    match fit {
        Fit::Length(n) => {
            put_head(out, n, number);
            slices::clear_from(out, end);
            return Fit::Length(3 + n);
        }
        Fit::TooShort => {
            if room < 16384 {
                slices::fill(out, 0);
                return Fit::TooShort;
            }
            put_head(out, 65535, number);
            slices::put_at(out, 3, page);
            slices::clear_from(out, 16387);
            return Fit::Length(16387);
        }
    }
}

// A block's head: the length's two bytes and the number.
fn put_head(out: &mut [u8], n: usize, number: u8)
    requires { (3 ≤ length out.old) × (n < 65536) }
    ensures { out.new ≡ n % 256 ∷ n / 256 ∷ number ∷ drop 3 out.old }
{
    out[0] = (n % 256) as u8;
    out[1] = (n / 256) as u8;
    out[2] = number;
}
