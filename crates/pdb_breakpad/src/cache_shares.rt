//! `CacheShare`: after how many functions a source's caches are cleared.

ghost use Rattle.pdb_breakpad.specs.FrameSource.{KeepsAnswers};

use crate::frame_source::FrameSource;

/// The least number of functions between two clearings. Fewer would make the source often recompute what functions have
/// in common.
const LEAST_SIZE: usize = 4096;

/// A share of a program's functions, after which the source's caches are cleared.
#[derive(Drop)]
pub(crate) struct CacheShare {
    size: usize,
    /// How many functions of this share were counted.
    counted: usize,
}

impl CacheShare {
    /// The first share, for a program with this many starts: an eighth of them.
    pub(crate) fn new(start_count: usize) -> CacheShare {
        CacheShare {
            size: (start_count / 8).max(LEAST_SIZE),
            counted: 0,
        }
    }

    /// Counts a function. If the share is full, clears the source's caches and begins the next share.
    pub(crate) fn count_function<'a, S: FrameSource<'a>>(&mut self, source: &mut S)
        ensures inputs { KeepsAnswers S.answers source.old source.new }
    {
        self.counted = self.counted.saturating_add(1);
        if self.counted >= self.size {
            source.clear_caches();
            self.counted = 0;
        }
    }
}
