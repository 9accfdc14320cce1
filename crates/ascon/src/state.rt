/// The permutation's state: five 64-bit words, in C an array of five. It has a file of its own, so
/// that the definitions in specs/ can speak of it and the code can cite those definitions. It isn't
/// compared or printed: it depends on the key.
#[repr(C)]
#[derive(Clone, Copy)]
pub struct State {
    pub x0: u64,
    pub x1: u64,
    pub x2: u64,
    pub x3: u64,
    pub x4: u64,
}
