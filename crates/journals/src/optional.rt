// A journal that is there or isn't.

ghost use Rattle.journals.specs.Optional.{any_fails, any_has, any_keeps, any_leaves, any_left, any_moment, any_now};

use crate::journal::{Journal, NotKept};
use tc_log::log::Log;

impl<K: Journal> Journal for Option<K> {
    ghost keeps = { λ journal. any_keeps K.keeps journal };

    ghost has_kept = { λ journal events. any_has K.has_kept journal events };

    ghost moment = { λ journal. any_moment K.moment journal };

    ghost left_since = { λ journal since left. any_left K.left_since journal since left };

    ghost leaves = { λ journal before more left. any_leaves K.leaves journal before more left };

    ghost fails = { λ before why after. any_fails K.fails before why after };

    ghost kept_now = { any_now K.has_kept K.moment K.left_since K.leaves K.kept_now };

    fn keeps(&self) -> bool {
        match self {
            None => false,
            Some(journal) => journal.keeps(),
        }
    }

    fn keep(&mut self, events: &Log) -> Result<(), NotKept> {
        match self {
            None => Err(NotKept::Failed),
            Some(journal) => journal.keep(events),
        }
    }
}
