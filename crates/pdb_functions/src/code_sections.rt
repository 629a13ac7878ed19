//! Finds executable sections, and where they end.

ghost use Rattle.std.specs.Prelude.{◌≡◌, IfOk};
ghost use Rattle.pdb_functions.specs.CodeSections.{is_executable, section_ends};

use pdb_records::{ImageSectionHeader, PdbInternalSectionOffset};
use std::alloc::{AllocError, Global};

// Whether the section with this number exists and is executable.
pub(crate) fn is_executable_section(sections: &[ImageSectionHeader], section_index: u16) -> bool
    ensures { result ≡ is_executable sections.now section_index }
{
    match section_index.checked_sub(1) {
        Some(index) => sections
            .get(usize::from(index))
            .is_some_and(|section| section.execute),
        None => false,
    }
}

// The ends of the executable sections. The last function of a section ends there.
pub(crate) fn executable_section_ends(
    alloc: Global,
    sections: &[ImageSectionHeader],
) -> Result<Vec<PdbInternalSectionOffset>, AllocError>
    ensures { IfOk result (λ v. v.items ≡ section_ends sections.now) }
{
    let mut ends = Vec::new(alloc);
    for (index, section) in sections.iter().enumerate() {
        if section.execute && index < usize::from(u16::MAX) {
            ends.push(PdbInternalSectionOffset {
                section: index as u16 + 1,
                offset: section.virtual_size,
            })?;
        }
    }
    Ok(ends)
}
