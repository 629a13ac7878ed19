//! `ReadPlan`: when a session stops reading single modules, and reads the rest of the file at once.

/// How often a session reads single modules. Each time the tables of a context are rebuilt, so after this many times
/// the rest of the file is read at once.
const ROUNDS: u32 = 16;

/// How many modules a session reads one by one, or a quarter of all modules if that is more. After these it reads the
/// rest of the file at once.
const MODULES: usize = 16;

/// A caller that asks for this many addresses at once will ask for more. The session then reads at most a sixteenth of
/// all modules one by one.
const MANY: usize = 2048;

/// Counts what was read of a file so far, to decide whether to read the rest at once.
#[derive(Clone, Copy, Drop)]
pub struct ReadPlan {
    /// How often modules were read.
    rounds: u32,
    /// How many modules were read.
    asked: usize,
}

impl ReadPlan {
    /// The plan for a file whose modules are all unread.
    pub fn new() -> Self {
        ReadPlan {
            rounds: 0,
            asked: 0,
        }
    }

    /// Whether the rest of the file is to be read at once. The caller's `addresses` addresses need `wanted` modules
    /// that weren't read, out of `modules` modules in the file.
    pub fn reads_all(&mut self, wanted: usize, addresses: usize, modules: usize) -> bool {
        self.rounds = self.rounds.saturating_add(1);
        self.asked = self.asked.saturating_add(wanted);
        let most = if addresses < MANY {
            MODULES.max(modules / 4)
        } else {
            modules / 16
        };
        self.rounds > ROUNDS || self.asked > most
    }
}
