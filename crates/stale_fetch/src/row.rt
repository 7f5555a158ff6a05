//! The bytes of a text of which one processor may fetch either of two values.
ghost use Rattle.std.specs.Prelude.{◌≡◌, ◌<◌, ℕ, All, None, Some, IfOk, length, replicate, slice_set};
ghost use Rattle.stale_fetch.specs.Windows.{window_at, widened_at};
ghost use Rattle.stale_fetch.specs.Choice.{chosen};

use crate::choice::Choice;
use poke_base::NoMemory;
use std::alloc::Global;
use std::marker::Model;

/// Two values of a byte, and the epoch of the processor in which it may fetch either.
#[derive(Clone, Copy)]
struct Window {
    epoch: u64,
    first: u8,
    second: u8,
}

/// The windows of one processor, one for each place of the text.
///
/// A window is open if it was opened in the processor's present epoch, which ends when the processor
/// serialises. So all windows are closed at once, however long the text is. Only where the numbers of
/// epochs have run out is each window closed by itself, which is once in 2^64 - 1 times.
#[derive(Drop)]
pub(crate) struct Windows {
    epoch: u64,
    windows: Vec<Window>,
}

impl Model for Windows {
    ghost use Rattle.stale_fetch.specs.Windows.{Row};

    ghost Value = { Row };

    ghost use Rattle.stale_fetch.specs.WindowInside.{row_of, IsTimely};

    ghost view = { row_of };

    ghost invariant = { IsTimely };
}

impl Windows {
    /// As many closed windows.
    ///
    /// # Errors
    /// Out of memory.
    pub(crate) fn new(alloc: Global, size: usize) -> Result<Windows, NoMemory>
        ensures { IfOk result (λ row. row ≡ replicate size None) }
    {
        let closed = Window {
            epoch: 0,
            first: 0,
            second: 0,
        };
        let windows = vec![in alloc; closed; size]?;
        Ok(Windows { epoch: 1, windows })
    }

    /// What the processor may fetch at a place where the text holds a byte.
    pub(crate) fn choice(&self, place: usize, held: u8) -> Choice
        requires { place < length self.now }
        ensures { result ≡ chosen held (window_at self.now place) }
    {
        let window = self.windows[place];
        if window.epoch == self.epoch {
            Choice::Two(window.first, window.second)
        } else {
            Choice::One(held)
        }
    }

    /// Opens the window at a place for a write of a byte where another was held. An open window stays.
    pub(crate) fn widen(&mut self, place: usize, held: u8, byte: u8)
        requires { place < length self.old }
        ensures { self.new ≡ widened_at place held byte self.old }
    {
        if self.windows[place].epoch != self.epoch && held != byte {
            self.windows[place] = Window {
                epoch: self.epoch,
                first: held,
                second: byte,
            };
        }
    }

    /// Closes all windows.
    pub(crate) fn close(&mut self)
        ensures { self.new ≡ replicate (length self.old) None }
    {
        if self.epoch == u64::MAX {
            end_epochs(&mut self.windows);
            self.epoch = 1;
        } else {
            self.epoch += 1;
        }
    }
}

/// Puts all windows into the epoch 0, in which none is open.
fn end_epochs(windows: &mut [Window])
    ensures { All (λ w. w.epoch ≡ 0) windows.new }
{
    for window in windows {
        window.epoch = 0;
    }
}
