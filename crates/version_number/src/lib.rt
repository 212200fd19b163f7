// The library's version, as a C program asks for it.
#![tactic(auto)]

ghost use Rattle.std.specs.Prelude.{◌≡◌};
ghost use Rattle.version_number.specs.Version.{library_version};

// 10000 * major + 100 * minor + patch.
pub fn current() -> u32
    ensures { result ≡ library_version }
{
    600
}
