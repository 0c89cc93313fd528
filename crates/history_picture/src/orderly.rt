//! Whether a scene can be drawn.

ghost use Rattle.std.specs.Prelude.{◌≡◌, ◌↔◌, All, IsTrue};
ghost use Rattle.history_picture.specs.Picture.{AreInTurn, IsInOrder, IsOrderly, IsOver};

use crate::scene::{Bar, Scene};

/// Whether a call begins before it takes effect, and takes effect before it returns.
fn is_bar(bar: &Bar, lanes: usize) -> bool
    ensures { IsTrue result ↔ IsOrderly lanes bar.now }
{
    if bar.lane >= lanes as u64 {
        return false;
    }
    match (bar.point, bar.end) {
        (Some(point), Some(end)) => bar.begin < point && point < end,
        (Some(point), None) => bar.begin < point,
        (None, Some(end)) => bar.begin < end,
        (None, None) => true,
    }
}

/// Whether a later call is of another process, or begins after a call returned.
fn is_over(bar: &Bar, later: &Bar) -> bool
    ensures { IsTrue result ↔ IsOver bar.now later.now }
{
    match bar.end {
        _ if later.lane != bar.lane => true,
        Some(end) => end < later.begin,
        None => false,
    }
}

/// Whether each of some later calls is of another process, or begins after a call returned.
fn are_over(bar: &Bar, later: &[Bar]) -> bool
    ensures { IsTrue result ↔ All (IsOver bar.now) later.now }
{
    later.iter().all(|later| is_over(bar, later))
}

/// Whether the calls of each process are one after the other.
fn are_in_turn(bars: &[Bar]) -> bool
    ensures { IsTrue result ↔ AreInTurn bars.now }
{
    for i in 0..bars.len() {
        if !are_over(&bars[i], &bars[i + 1..]) {
            return false;
        }
    }
    true
}

/// Whether each call of a scene can be drawn, and those of a process one after the other.
pub(crate) fn is_orderly(scene: &Scene) -> bool
    ensures { IsTrue result ↔ IsInOrder scene.now }
{
    let lanes = scene.names.len();
    scene.bars.iter().all(|bar| is_bar(bar, lanes)) && are_in_turn(&scene.bars)
}
