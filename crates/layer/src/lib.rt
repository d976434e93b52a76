// Layers over any medium, each a medium again.
#![tactic(auto)]

mod held;
mod holding;
mod holdings;
mod laws;
mod runs;
mod window;

pub use holding::Holding;
pub use laws::read_back_through;
pub use runs::{holding_back, through};
pub use window::Window;
