// The page that `view::view` returns, copied out under a C name, for tests only.
#![tactic(auto)]

ghost use Rattle.std.specs.Prelude.{◌≡◌, length};
ghost use Rattle.view_exports.specs.Viewed.{viewed_of, page_into};

// The page's length; the page in `out`, where it has room for it, and zeros after it.
pub fn view_page<'a>(head: &[u8], rom: &'a [u8], area: &'a [u8], page: u8, out: &mut [u8]) -> u64
    ensures { (result ≡ length (viewed_of head.now rom.now area.now page)) × (out.new ≡ page_into (viewed_of head.now rom.now area.now page) (length out.old)) }
{
    slices::fill(out, 0);
    let decoded = header_canonical::decode_header(head);
    if decoded.canonical {
        let m = decoded.machine;
        let part = view::view(m, rom, area, page);
        let n = part.len();
        if n <= out.len() {
            slices::put_at(out, 0, part);
        }
        return n as u64;
    }
    0
}
