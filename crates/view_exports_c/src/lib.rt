// The function of `view_exports` for C, for tests only. It calls the function of its name and promises the same.
#![tactic(auto)]

ghost use Rattle.std.specs.Prelude.{◌≡◌, length};
ghost use Rattle.view_exports.specs.Viewed.{viewed_of, page_into};

// The page's length; the page in `out`, where it has room for it, and zeros after it.
#[unsafe(no_mangle)]
pub extern "C" fn view_page<'a>(
    head: &[u8],
    rom: &'a [u8],
    area: &'a [u8],
    page: u8,
    out: &mut [u8],
) -> u64
    ensures { (result ≡ length (viewed_of head.now rom.now area.now page)) × (out.new ≡ page_into (viewed_of head.now rom.now area.now page) (length out.old)) }
{
    view_exports::view_page(head, rom, area, page, out)
}
