// The ends of a connection together.
ghost use Rattle.gw_io.specs.Ends.{EndsState};

use crate::{Clock, Sink, Source};

/// What contracts see of a connection's source, sink and clock together: one word for the three.
pub trait Ends {
    ghost ends: { Self → EndsState };
}

impl<S: Source, K: Sink, C: Clock> Ends for (S, K, C) {
    ghost ends = { λ e. record {
      left = S.left e.0;
      taken = K.taken e.1;
      told = C.told e.2;
      plan = C.plan e.2;
      read_faults = S.faults e.0;
      write_faults = K.faults e.1;
    } };
}
