// Finding one's way in a file that a test reads.
#![tactic(auto)]

ghost use Rattle.std.specs.Prelude.{◌≡◌, ◌+◌, ◌≤◌, min, length};

// The next place of this byte from a place on; the end where there is none.
pub fn find(bytes: &[u8], from: usize, wanted: u8) -> usize
    requires { from ≤ length bytes.now }
    ensures { (from ≤ result) × (result ≤ length bytes.now) }
{
    bytes[from..]
        .iter()
        .position(|&b| b == wanted)
        .map_or(bytes.len(), |far| from + far)
}

// The place behind a place; the end for the end.
pub fn behind(bytes: &[u8], place: usize) -> usize
    requires { place ≤ length bytes.now }
    ensures { result ≡ min (place + 1) (length bytes.now) }
{
    bytes.len().min(place + 1)
}
