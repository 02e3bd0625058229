//! How a thread waits for the end of another's turn: it looks for a while, and then sleeps.
//!
//! Nothing here changes the table, so no proof rests on it. That a sleeper is woken goes like this: it counts itself
//! first, and the kernel puts it to sleep only if the served ticket is still the one that it saw; who ends a turn
//! serves the next ticket first, and then looks at the count.
ghost use Rattle.std.specs.Prelude.{◌≡◌};
ghost use Rattle.turn_lock.specs.Seats.{IsSized};

use crate::board::{NEXT, SERVED, Stands};
use crate::steps::Board;
use std::hint::spin_loop;
use std::sync::Wait;
use std::sync::atomic::{AtomicU64, Ordering};

/// How often a thread looks before it sleeps.
pub(crate) const LOOKS: u32 = 100;

/// How often a thread sleeps before it draws a ticket although others wait.
const SLEEPS: u32 = 2;

/// The kernel compares the lower half of a word. Fewer seats than this are out, so waiting tickets differ there.
const LOW_HALF: u64 = 1 << 32;

/// How many threads sleep, or are about to.
#[derive(Drop)]
pub(crate) struct Sleepers {
    count: AtomicU64,
}

impl Sleepers {
    pub(crate) fn none() -> Sleepers {
        Sleepers {
            count: AtomicU64::new(0),
        }
    }

    /// Waits until nobody has or awaits a turn, but not for long.
    ///
    /// Tickets are served in order, so a thread that sleeps on its ticket holds up all behind it. A thread that draws
    /// when the lock looks free seldom has to.
    pub(crate) fn await_quiet<T: Stands, R: Wait>(&self, rt: &R, board: &Board<T>)
        requires { IsSized board.now.table_id }
    {
        for _ in 0..SLEEPS {
            if looks_quiet(board) {
                return;
            }
            let served = board.peek(SERVED);
            if board.peek(NEXT) != served {
                self.sleep(rt, board, served);
            }
        }
    }

    /// Sleeps until a turn ends, if that ticket is still served. It may also return for no reason.
    pub(crate) fn sleep<T: Stands, R: Wait>(&self, rt: &R, board: &Board<T>, served: u64)
        requires { IsSized board.now.table_id }
    {
        self.count.fetch_add(1, Ordering::SeqCst);
        board.park(rt, SERVED, (served % LOW_HALF) as u32);
        self.count.fetch_sub(1, Ordering::SeqCst);
    }

    /// Wakes all that sleep.
    pub(crate) fn wake<T: Stands>(&self, board: &Board<T>)
        requires { IsSized board.now.table_id }
    {
        if self.count.load(Ordering::SeqCst) != 0 {
            board.wake_all(SERVED);
        }
    }
}

// Whether nobody had or awaited a turn at one of a few looks.
fn looks_quiet<T: Stands>(board: &Board<T>) -> bool
    requires { IsSized board.now.table_id }
{
    for _ in 0..LOOKS {
        if board.peek(SERVED) == board.peek(NEXT) {
            return true;
        }
        spin_loop();
    }
    false
}
