// Running something over a layer, and taking the layer off again.
ghost use Rattle.layer.specs.Holds.{HeldBack};
ghost use Rattle.layer.specs.Windows.{Through};

use super::holding::Holding;
use super::window::Window;
use medium::Medium;

// Runs something on a window onto a medium, and gives the medium back. The state is lent to it and not captured, so that a
// contract can say what became of it.
pub fn through<M: Medium, S, R, F: FnOnce(Window<M>, &mut S) -> (Window<M>, R)>(
    medium: M,
    first: usize,
    count: usize,
    state: &mut S,
    run: F,
) -> (M, R)
    requires { F.IsAlwaysCallable run }
    ensures { Through (F.post run) first count medium state.old result state.new }
{
    let (window, answer) = run(Window::new(medium, first, count), state);
    (window.into_medium(), answer)
}

// The same on a layer over a medium that holds pages back. What it still holds at the end is lost.
pub fn holding_back<M: Medium, S, R, F: FnOnce(Holding<M>, &mut S) -> (Holding<M>, R)>(
    medium: M,
    state: &mut S,
    run: F,
) -> (M, R)
    requires { F.IsAlwaysCallable run }
    ensures { HeldBack (F.post run) medium state.old result state.new }
{
    let (hold, answer) = run(Holding::new(medium), state);
    (hold.into_medium(), answer)
}
