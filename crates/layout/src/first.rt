// The first page of a show file.
ghost use Rattle.std.specs.Prelude.{◌≤◌};

// What the first page tells: how many pages the file has, and the counter that says which headers count.
#[derive(Clone, Copy, PartialEq, Eq, Debug)]
pub struct FirstPage {
    pub pages: usize,
    pub counter: u32,
    ghost least: { 2 ≤ pages },
    ghost most: { pages ≤ 4096 },
}
