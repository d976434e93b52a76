// What a field may hold.
use octets::Width;

// A field: how many bytes its number takes, and the least and the greatest number it may hold.
#[derive(Clone, Copy, PartialEq, Eq, Debug)]
pub struct Field {
    pub width: Width,
    pub low: u32,
    pub high: u32,
}
