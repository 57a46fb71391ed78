/// The bounds of a question: how many backward jumps a thread may take, and how many bits an int may have. Calls that
/// take bounds have the condition `IsBounds`: at most 255 jumps, and 2 to 32 bits.
#[derive(Clone, Copy, Debug, PartialEq, Eq, Drop)]
pub struct Bounds {
    pub jumps: u32,
    pub width: u32,
}
