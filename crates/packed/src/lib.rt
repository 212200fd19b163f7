// The run-length code of .Z80 files, over any bytes: document 01, "Packed data". It knows nothing of a Spectrum.
// Here is what it means, and no function. What stands above relies on specs/Unpacking, specs/Packing and the laws of specs/Packed/Promise.
#![tactic(auto)]

// The answer of unpacking; another length with that length, at most 65,536 of it; malformed data with the offset of the first bad code.
#[derive(Clone, Copy)]
pub enum Unpacked {
    Good,
    WrongLength(usize),
    Malformed(usize),
}

// The answer of packing.
#[derive(Clone, Copy)]
pub enum Fit {
    Length(usize),
    TooShort,
}
