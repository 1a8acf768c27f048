//! A lane is what bytes are put into.
use crate::lane::Lane;
use folder_base::{Folder, StoreFault, Taker};

impl<F: Folder> Taker for Lane<F> {
    ghost use Rattle.keep_store.specs.Lane.{Took, MayAnswer, spare_of};
    ghost use Rattle.keep_store.specs.Seen.{lane_seen};
    ghost use Rattle.keep_store.specs.TookLaws.{took_none as seen_none, took_both as seen_both};

    ghost took = { λ old bytes new. Took (lane_seen old) bytes (lane_seen new) };

    ghost spare = { λ lane. spare_of (lane_seen lane) };

    ghost may_refuse = { λ lane bytes fault. MayAnswer (lane_seen lane) fault };

    ghost took_none = { λ lane. seen_none (lane_seen lane) };

    ghost took_both = { λ first second third front back one two.
        seen_both (lane_seen first) (lane_seen second) (lane_seen third) front back one two };

    fn put(&mut self, bytes: &[u8]) -> Result<(), StoreFault> {
        self.take(bytes)
    }
}
