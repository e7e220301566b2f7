// Windows and the clock. Windows include both ends.
#![tactic(auto)]

ghost use Rattle.std.specs.Prelude.{◌≡◌};
ghost use Rattle.board.specs.Windows.{window_fits, wholly_before, in_window, is_over};

use board::Duty;

// Whether a window does not start after its end.
pub fn window_fits(d: Duty) -> bool
    ensures { result ≡ window_fits d }
{
    d.start <= d.end
}

// Whether a duty is wholly before another: its end is less than the other's start.
pub fn wholly_before(b: Duty, c: Duty) -> bool
    ensures { result ≡ wholly_before b c }
{
    b.end < c.start
}

// Whether the clock lies in a duty's window.
pub fn in_window(clock: u32, d: Duty) -> bool
    ensures { result ≡ in_window clock d }
{
    (d.start..=d.end).contains(&clock)
}

// Whether a duty's window is over: its end is below the clock.
pub fn is_over(clock: u32, d: Duty) -> bool
    ensures { result ≡ is_over clock d }
{
    d.end < clock
}
