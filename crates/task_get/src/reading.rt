ghost use Rattle.std.specs.Prelude.{◌≡◌};
ghost use Rattle.task_get.specs.Readings.{next_piece};

use manifest::Part;
use rgw_types::Manifest;
use std::marker::Model;
use task_words::{ByteRange, MapReply};

/// An object of which further bytes come from its tails.
#[derive(Drop)]
pub struct Reading {
    /// The reply that shows the range.
    pub reply: MapReply,
    pub manifest: Manifest,
    pub range: ByteRange,
    /// The number of the tail that comes next.
    pub part: u32,
    /// How many bytes were given.
    pub given: u64,
    /// The clock at the read of the head.
    pub read_at: u64,
}

impl Model for Reading {
    ghost use Rattle.task_get.specs.Readings.{ReadingView, IsReading};

    ghost Value = { ReadingView };

    ghost view = { λ x. record { reply = x.reply; manifest = x.manifest; range = x.range; part = x.part; given = x.given; read_at = x.read_at } };

    ghost invariant = { λ x. IsReading (record { reply = x.reply; manifest = x.manifest; range = x.range; part = x.part; given = x.given; read_at = x.read_at }) };
}

impl Reading {
    /// The bytes of the range in the tail that comes next.
    pub fn next_piece(&self) -> Part
        ensures { result ≡ next_piece self.now }
    {
        let stripe = u64::from(self.manifest.stripe);
        let begins = u64::from(self.part) * stripe;
        let from = self.range.start.max(begins);
        let to = (self.range.start + self.range.count).min(begins + stripe);
        Part {
            part: self.part,
            start: from - begins,
            count: to - from,
        }
    }
}
