// The six numbers handed back as one.
ghost use Rattle.std.specs.Prelude.{◌≡◌, ◌≤◌};
ghost use Rattle.analysis.specs.Outcome.{packed};

// From the lowest byte: code, place (two bytes, low first), rank, index, freedom, blocks, then 0.
// Kept (point 1): 0 and 10 are given as numbers, for the C entry hands back one number, and `Solved` and `Singular` of specs/Outcome say it so.
// Kept (point 5): six parameters; they go together into this function alone, at three calls, and a struct would repeat their names there and no more.
pub fn pack(code: u8, place: usize, rank: u8, index: u8, freedom: u8, blocks: u8) -> u64
    requires { place ≤ 65535 }
    ensures { result ≡ packed code place rank index freedom blocks }
{
    // Kept (point 4): `as` is proved to lose nothing; `try_from` would hand back an error that cannot come.
    let [low, high] = (place as u16).to_le_bytes();
    u64::from_le_bytes([code, low, high, rank, index, freedom, blocks, 0])
}
