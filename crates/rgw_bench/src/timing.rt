//! How long work takes.
use std::rt::Clock;
use std::time::{Duration, Instant};

/// What work counted, and how long it took.
#[derive(Clone, Copy, Debug)]
pub struct Timed {
    pub count: u64,
    pub time: Duration,
}

impl Timed {
    /// Slower than any.
    pub fn never() -> Timed {
        Timed {
            count: 0,
            time: Duration::MAX,
        }
    }

    /// Works once more, and keeps what was faster.
    pub fn round<R: Clock, F: FnOnce() -> anyhow::Result<u64>>(
        &mut self,
        rt: &R,
        work: F,
    ) -> anyhow::Result<()>
        requires { F.IsAlwaysCallable work }
    {
        let timed = clocked(rt, work)?;
        self.keep(timed);
        Ok(())
    }

    /// Keeps the faster of both.
    pub fn keep(&mut self, other: Timed) {
        if other.time < self.time {
            *self = other;
        }
    }

    /// How many a second.
    pub fn a_second(&self) -> u64 {
        let nanos = self.time.as_nanos().max(1);
        let count = u128::from(self.count) * 1_000_000_000 / nanos;
        u64::try_from(count).unwrap_or(u64::MAX)
    }

    /// How many MiB a second, where bytes were counted.
    pub fn mebibytes_a_second(&self) -> u64 {
        self.a_second() / 1_048_576
    }

    /// So many of something else in the same time.
    pub fn of(&self, count: u64) -> Timed {
        Timed {
            count,
            time: self.time,
        }
    }

    /// How many nanoseconds each took.
    pub fn nanos(&self) -> u64 {
        let nanos = self.time.as_nanos() / u128::from(self.count.max(1));
        u64::try_from(nanos).unwrap_or(u64::MAX)
    }
}

/// Times work, which says what it counted.
pub fn clocked<R: Clock, F: FnOnce() -> anyhow::Result<u64>>(
    rt: &R,
    work: F,
) -> anyhow::Result<Timed>
    requires { F.IsAlwaysCallable work }
{
    let start = Instant::now(rt)?;
    let count = work()?;
    let time = start.elapsed(rt)?;
    Ok(Timed { count, time })
}
