// The three kinds of change.

// What is done to a key in the draft: it is added with a value, its value is replaced, or it is taken out.
#[derive(Clone, Copy, PartialEq, Eq, Debug)]
pub enum Change {
    Put,
    Replace,
    Remove,
}
