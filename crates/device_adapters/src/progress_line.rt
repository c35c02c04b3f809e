//! Progress on a single line of a terminal.
use crate::progress::Progress;
use std::io;
use std::rt::Clock;
use std::time::Instant;

const MIB: u64 = 1 << 20;

/// The shortest time between two lines, in milliseconds.
const BETWEEN: u128 = 500;

/// Control sequences (ECMA-48, CUU and EL): move to the start of the line above, and clear the rest of a line.
const OVER: &str = "\x1b[A\r";

const CLEAR: &str = "\x1b[K";

/// Prints progress to standard error at most twice a second, on a line that overwrites the previous one: the bytes
/// done, the total, the speed, and the seconds left. Other output, such as a fault, is on a line of its own. Nothing
/// is shown for a transfer that takes less than half a second, or if standard error or the clock fails.
#[derive(Drop)]
pub struct ProgressLine<'a, R> {
    rt: &'a R,
    begun: Option<Instant>,
    shown: Option<Instant>,
}

impl<'a, R: Clock + Eprint> ProgressLine<'a, R> {
    /// Returns a line that shows nothing until a transfer begins.
    pub fn new(rt: &'a R) -> ProgressLine<'a, R> {
        ProgressLine {
            rt,
            begun: None,
            shown: None,
        }
    }

    // Returns whether it is time for the next line.
    fn is_due(&self, begun: Instant, now: Instant) -> bool {
        let last = self.shown.unwrap_or(begun);
        now.duration_since(last).as_millis() >= BETWEEN
    }

    fn show(&self, done: u64, all: Option<u64>, millis: u128) -> io::Result<()> {
        let speed = per_second(done, millis);
        let had = done / MIB;
        let rate = speed / MIB;
        let (over, clear) = match self.shown {
            None => ("", ""),
            Some(_) => (OVER, CLEAR),
        };
        match all {
            None => {
                let text = format_args!("{over}{had} MiB, {rate} MiB/s{clear}\n");
                self.rt.eprint(text)
            }
            Some(all) => {
                let whole = all / MIB;
                let left = all.saturating_sub(done).checked_div(speed).unwrap_or(0);
                let text = format_args!(
                    "{over}{had} of {whole} MiB, {rate} MiB/s, {left} s left{clear}\n"
                );
                self.rt.eprint(text)
            }
        }
    }
}

// Returns the number of bytes per second, given the bytes done in `millis` milliseconds.
fn per_second(done: u64, millis: u128) -> u64 {
    let speed = (u128::from(done) * 1000).checked_div(millis).unwrap_or(0);
    u64::try_from(speed).unwrap_or(u64::MAX)
}

impl<R: Clock + Eprint> Progress for ProgressLine<'_, R> {
    // Time is measured from here on.
    fn begin(&mut self) {
        self.begun = Instant::now(self.rt).ok();
    }

    fn tell(&mut self, done: u64, all: Option<u64>) {
        let Some(begun) = self.begun else {
            return;
        };
        let Ok(now) = Instant::now(self.rt) else {
            return;
        };
        if self.is_due(begun, now) {
            let _printed = self.show(done, all, now.duration_since(begun).as_millis());
            self.shown = Some(now);
        }
    }

    // Of the clock that doesn't go back.
    fn seconds(&mut self) -> u64 {
        let Ok(time) = self.rt.monotonic() else {
            return 0;
        };
        time.as_secs()
    }
}
