//! How a seat waits for its turn. Nothing here changes what a call answers.
//!
//! The seat whose ticket is next keeps looking, and never sleeps. Those further back sleep once no turn has passed for
//! a while, and whoever passes a turn on wakes them all.

ghost use Rattle.std.specs.Prelude.{◌≡◌};

use crate::rule::Board;
use crate::turn::SERVING;
use std::sync::Wait;
use std::sync::atomic::{AtomicU64, Ordering};
use std::thread;

// How often a seat looks without seeing a turn pass before it gives way to others.
const LOOKS: u32 = 500;

// How often a seat has looked since it saw a turn pass.
#[derive(Drop)]
pub(crate) struct Patience {
    serving: u64,
    looks: u32,
}

impl Patience {
    pub(crate) fn new() -> Patience {
        Patience {
            serving: 0,
            looks: 0,
        }
    }

    // Counts one more look, which found this ticket served.
    pub(crate) fn is_at_its_end(&mut self, serving: u64) -> bool {
        if self.serving != serving {
            self.serving = serving;
            self.looks = 0;
        }
        self.looks = self.looks.saturating_add(1);
        self.looks > LOOKS
    }
}

// Lets other threads run, after a look at which so many turns were ahead of the seat's.
pub(crate) fn give_way<R: Wait>(rt: &R, board: &Board, asleep: &AtomicU64, ahead: u64, serving: u64)
    requires { board.now.table_id.words ≡ 3 }
{
    if ahead == 1 {
        thread::yield_now();
        return;
    }
    // The seat is counted before the kernel compares the ticket served with the one that was seen. Whoever passes a
    // turn on changes the ticket first, and looks at the count then. So either the comparison finds another ticket,
    // and the seat does not sleep, or each pass from then on finds the seat counted, and wakes it. That asks for
    // steps that are sequentially consistent: under a weaker order the comparison could come before the count is
    // seen by others, and the wake-up would be lost. `tools/turn_model.py` tries every order of these steps.
    asleep.fetch_add(1, Ordering::SeqCst);
    board.park(rt, SERVING, (serving & 0xffff_ffff) as u32);
    asleep.fetch_sub(1, Ordering::SeqCst);
}

// Wakes those who sleep. It comes behind the step that passes the turn on.
pub(crate) fn wake_sleepers(board: &Board, asleep: &AtomicU64)
    requires { board.now.table_id.words ≡ 3 }
{
    if asleep.load(Ordering::SeqCst) > 0 {
        board.wake_all(SERVING);
    }
}
