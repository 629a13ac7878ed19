//! `CodeOwners`: which module owns the code at an address, by section contributions.

ghost use Rattle.std.specs.Prelude.{◌≡◌, IfOk};
ghost use Rattle.pdb_session.specs.CodeOwners.{address_map_of, contributions_in, headers_of, lacks_owner};
ghost use Rattle.pdb_session.specs.CodeOwners.{owner_at, owners_of};

use pdb_addr2line::Error;
use pdb_addr2line::parts::{Probes, compute_section_contributions};
use pdb_functions::ContributionTable;
use pdb_known::KnownRecords;
use pdb_records::{AddressMap, ImageSectionHeader, PDB, Rva};
use std::alloc::{AllocError, Global};
use std::marker::Model;

/// Where sections are loaded, and which module each byte of their code came from.
#[derive(Drop)]
pub struct CodeOwners {
    address_map: AddressMap,
    contributions: ContributionTable,
}

impl Model for CodeOwners {
    ghost use Rattle.pdb_session.specs.CodeOwners.{Owners};

    ghost Value = { Owners };

    ghost view = { λ o. record {
      address_map = o.address_map;
      contributions = o.contributions;
    } };
}

impl CodeOwners {
    /// The code owners that these records list. Without section contributions there are none.
    pub fn new(alloc: Global, records: &PDB) -> Result<Self, Error>
        ensures { IfOk result (λ owners. owners ≡ owners_of records.now) }
    {
        Ok(CodeOwners {
            address_map: address_map_of(alloc, records)?,
            contributions: contributions_of(alloc, records)?,
        })
    }

    /// The module whose contribution contains an address.
    pub fn owner_at(&self, address: u32) -> Option<usize>
        ensures { result ≡ owner_at self.now address }
    {
        let section_offset = Rva(address).to_internal_offset(&self.address_map)?;
        let contribution = self
            .contributions
            .contribution_over(section_offset, &mut Probes::new())?;
        Some(contribution.module_index)
    }

    /// Whether the module that owns the code at an address isn't read yet. `false` if no module owns it.
    pub fn is_lacking(&self, known: &KnownRecords, address: u32) -> bool
        ensures { result ≡ lacks_owner known.now self.now address }
    {
        match self.owner_at(address) {
            Some(owner) => !known.is_read(owner),
            None => false,
        }
    }
}

// Where sections are loaded; empty if the records have no address map.
fn address_map_of(alloc: Global, records: &PDB) -> Result<AddressMap, AllocError>
    ensures { IfOk result (λ map. map ≡ address_map_of records.now) }
{
    let sections = match &records.address_map {
        Ok(map) => Vec::from_slice(alloc, &map.sections)?,
        Err(_) => Vec::new(alloc),
    };
    Ok(AddressMap { sections })
}

// The merged contributions of the records; none if their debug information can't be read.
fn contributions_of(alloc: Global, records: &PDB) -> Result<ContributionTable, Error>
    ensures { IfOk result (λ table. table ≡ contributions_in records.now) }
{
    let merged = match &records.debug_information {
        Ok(debug) => compute_section_contributions(alloc, debug, headers_of(records))?.0,
        Err(_) => Vec::new(alloc),
    };
    Ok(ContributionTable::new(alloc, merged)?)
}

// The headers of the sections; none where the records don't say them.
fn headers_of(records: &PDB) -> &[ImageSectionHeader]
    ensures { result.now ≡ headers_of records.now }
{
    match &records.sections {
        Ok(Some(sections)) => sections,
        _ => &[],
    }
}
