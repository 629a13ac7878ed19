//! Checks of the formatter's flags.

use crate::checks::Checks;
use bitflags::Flags;
use pdb_types::TypeFormatterFlags;

/// The checks of flags.
pub(crate) fn checks() -> Checks {
    let chosen = TypeFormatterFlags::default();
    let joined = chosen.union(TypeFormatterFlags::NO_ARGUMENTS);
    Checks::NONE
        .and("flags where none are named", chosen.bits() == 23)
        .and("flags that are joined", joined.bits() == 55)
        .and(
            "a flag that is among others",
            joined.intersects(TypeFormatterFlags::NO_ARGUMENTS),
        )
        .and(
            "a flag that is not",
            !chosen.intersects(TypeFormatterFlags::NO_ARGUMENTS),
        )
        .and(
            "a bit without a name",
            TypeFormatterFlags::from_bits_retain(256).bits() == 256,
        )
}
