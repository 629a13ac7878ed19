//! `PdbSession`: the records of a file that were read so far, and the reader of the rest.

ghost use Rattle.std.specs.Prelude.{◌≡◌, IfErr, IfOk, OnOk, true};
ghost use Rattle.pdb_container.specs.Front.{SameFront};
ghost use Rattle.pdb_repairs.specs.Repaired.{repaired, repairs_of};
ghost use Rattle.pdb_errors.specs.Outcomes.{Refuses};
ghost use Rattle.pdb_addr2line.specs.ContextData.{records_refusal};
ghost use Rattle.pdb_known.specs.Known.{all_read};
ghost use Rattle.pdb_known.specs.StrictlyClosed.{is_strictly_closed};
ghost use Rattle.pdb_session.specs.CodeOwners.{lacks_owner, owners_of};
ghost use Rattle.pdb_session.specs.FileParts.{IsPartOfFile, OpensFile, ReadsFile, RefusesFile, first_known};
ghost use Rattle.pdb_session.specs.Session.{SameFile, needs, needs_none};
ghost use Rattle.pdb_session.specs.UntoldRepairs.{IfModules, KeepsUntold, TellsAll, TellsAt, TellsFront};
ghost use Rattle.pdb_session.specs.UntoldRepairs.{ToldNone};

use crate::code_owners::CodeOwners;
use crate::front_records::FileFront;
use crate::module_reader::{FileReader, no_entries};
use crate::read_plan::ReadPlan;
use crate::session_context::SessionData;
use crate::session_error::SessionError;
use crate::untold_repairs::{no_repairs, take_all, take_at};
use pdb_addr2line::Error;
use pdb_container::parts::code_refusal;
use pdb_container::{Source, SourceError};
use pdb_known::{KnownRecords, is_closed};
use pdb_records::PDB;
use pdb_repairs::{Repair, repair_records};
use std::alloc::{AllocError, Global};
use std::marker::Model;

/// A PDB file that is read as addresses are looked up: the records that were read so far, after repairs, and the reader
/// of the rest.
pub struct PdbSession<S: Source> {
    alloc: Global,
    known: KnownRecords,
    owners: CodeOwners,
    /// Whether no record that was read refers to one that wasn't.
    is_closed: bool,
    /// Reads the file; `None` if the records were complete from the start.
    reader: Option<FileReader<S>>,
    plan: ReadPlan,
    /// The repairs of each module that was read, until a call returns them.
    kept: Vec<Vec<Repair>>,
}

impl<S: Source + Drop> Drop for PdbSession<S> {
    fn drop(self) {
        let PdbSession {
            alloc: _,
            known: _,
            owners: _,
            is_closed: _,
            reader: _,
            plan: _,
            kept: _,
        } = self;
    }
}

// Contracts see a session as the records that were read, and the bytes of the file if its source says them.
impl<S: Source> Model for PdbSession<S> {
    ghost use Rattle.std.specs.Prelude.{◌≡◌, IfSome, None, length, map, true};
    ghost use Rattle.std.specs.Option.{option_and_then, option_map_or};
    ghost use Rattle.pdb_known.specs.StrictlyClosed.{is_strictly_closed};
    ghost use Rattle.pdb_session.specs.CodeOwners.{owners_of};
    ghost use Rattle.pdb_session.specs.FileParts.{IsWhole, ReadsFile};
    ghost use Rattle.pdb_session.specs.Session.{SessionFile};

    ghost Value = { SessionFile };

    ghost view = { λ s. record {
      known = s.known;
      kept = map (λ repairs. repairs.items) s.kept.items;
      bytes = option_and_then (λ r. S.bytes r.source) s.reader;
      file_length = option_map_or (λ r. r.map.file_length) s.reader 0;
    } };

    ghost invariant = { λ s. record {
      owners : s.owners ≡ owners_of s.known.records;
      closed : s.is_closed ≡ is_strictly_closed s.known;
      whole : IsWhole s.known;
      alone : s.reader ≡ None → s.known.all ≡ true;
      file : IfSome s.reader (λ r. ReadsFile (S.bytes r.source) r.map r.places.items r.lists s.known);
      count : IfSome s.reader (λ r. length s.kept.items ≡ length r.places.items);
    } };
}

/// A session that was opened.
#[derive(Drop)]
pub struct Opened<S: Source> {
    pub session: PdbSession<S>,
    /// Whether the file was linked with `/DEBUG:FASTLINK`: it has only names, and lines and types are in object files.
    pub names_only: bool,
    /// The broken parts that were removed from the records.
    pub repairs: Vec<Repair>,
}

impl<S: Source + Drop> PdbSession<S> {
    /// Opens a session over a PDB file of this length. It reads everything except types, ids and modules, and removes
    /// broken parts.
    ///
    /// # Errors
    ///
    /// [`SessionError::File`] if the file isn't a PDB file that can be read, or a range of it can't be read.
    /// [`SessionError::Refused`] if nothing can be answered over its records.
    pub fn open(alloc: Global, source: S, file_length: usize) -> Result<Opened<S>, SessionError>
        ensures bytes { IfOk result (λ opened. opened.session.bytes ≡ S.bytes source) }
        ensures length { IfOk result (λ opened. opened.session.file_length ≡ file_length) }
        ensures told { IfOk result (λ opened. TellsFront opened.session opened.repairs.items) }
        ensures untold { IfOk result (λ opened. ToldNone opened.session) }
        ensures refused { RefusesFile result (S.bytes source) file_length }
    {
        let (reader, front) = FileReader::open(alloc, source, file_length)?;
        Self::over_file(alloc, reader, front)
    }

    // A session over a file of which everything except types, ids and modules was read.
    fn over_file(
        alloc: Global,
        reader: FileReader<S>,
        front: FileFront,
    ) -> Result<Opened<S>, SessionError>
        requires file { OpensFile (S.bytes reader.source) reader.map reader.places.items reader.lists front.records }
        ensures bytes { IfOk result (λ opened. opened.session.bytes ≡ S.bytes reader.source) }
        ensures length { IfOk result (λ opened. opened.session.file_length ≡ reader.map.file_length) }
        ensures records { IfOk result (λ opened. opened.session.known.records ≡ repaired front.records) }
        ensures names_only { IfOk result (λ opened. opened.names_only ≡ front.names_only) }
        ensures told { IfOk result (λ opened. TellsFront opened.session opened.repairs.items) }
        ensures untold { IfOk result (λ opened. ToldNone opened.session) }
        ensures refused { RefusesFile result (S.bytes reader.source) reader.map.file_length }
    {
        let FileFront {
            mut records,
            names_only,
        } = front;
        if let Some(refusal) = code_refusal(&records) {
            return Err(SessionError::Refused(refusal));
        }
        let repairs = repair_records(alloc, &mut records)?;
        let session = Self::over_front(alloc, records, reader)?;
        Ok(Opened {
            session,
            names_only,
            repairs,
        })
    }

    // A session over repaired records, with modules, types and ids still to be read.
    fn over_front(alloc: Global, records: PDB, reader: FileReader<S>) -> Result<Self, Error>
        requires file { ReadsFile (S.bytes reader.source) reader.map reader.places.items reader.lists
            (first_known records reader.places.items reader.lists) }
        ensures bytes { IfOk result (λ session. session.bytes ≡ S.bytes reader.source) }
        ensures length { IfOk result (λ session. session.file_length ≡ reader.map.file_length) }
        ensures records { IfOk result (λ session. session.known.records ≡ records) }
        ensures untold { IfOk result (λ session. ToldNone session) }
    {
        let owners = CodeOwners::new(alloc, &records)?;
        let mut modules = Vec::new(alloc);
        modules.resize(reader.module_count(), false)?;
        let kept = no_repairs(alloc, reader.module_count())?;
        let (types, sizes, ids) = reader.nothing_read(alloc)?;
        let known = KnownRecords {
            records,
            all: false,
            modules,
            types,
            sizes,
            ids,
        };
        Ok(PdbSession {
            alloc,
            is_closed: is_closed(&known),
            known,
            owners,
            reader: Some(reader),
            plan: ReadPlan::new(),
            kept,
        })
    }

    /// A session over complete records. Removes their broken parts.
    pub fn over_records(alloc: Global, records: PDB) -> Result<Opened<S>, Error>
        ensures answer { IfOk result (λ opened. opened.session.known ≡ all_read (repaired records)) }
        ensures repairs { IfOk result (λ opened. opened.repairs.items ≡ repairs_of records) }
    {
        let mut records = records;
        let repairs = repair_records(alloc, &mut records)?;
        let owners = CodeOwners::new(alloc, &records)?;
        let session = PdbSession {
            alloc,
            known: KnownRecords {
                records,
                all: true,
                modules: Vec::new(alloc),
                types: no_entries(alloc),
                sizes: no_entries(alloc),
                ids: no_entries(alloc),
            },
            owners,
            is_closed: true,
            reader: None,
            plan: ReadPlan::new(),
            kept: Vec::new(alloc),
        };
        Ok(Opened {
            session,
            names_only: false,
            repairs,
        })
    }

    /// The records that were read so far.
    pub fn records(&self) -> &PDB
        ensures { result.now ≡ self.now.known.records }
    {
        &self.known.records
    }

    /// Whether no record that was read refers to one that wasn't.
    pub fn is_closed(&self) -> bool
        ensures { result ≡ is_strictly_closed self.now.known }
    {
        self.is_closed
    }

    /// Returns the records that were read, and which they are. The rest of the file can't be read after that.
    pub fn into_known(self) -> KnownRecords
        ensures answer { result ≡ self.known }
        ensures file { IsPartOfFile result self.bytes self.file_length }
    {
        let PdbSession {
            alloc: _,
            known,
            owners: _,
            is_closed: _,
            reader: _,
            plan: _,
            kept: _,
        } = self;
        known
    }

    /// Reads what is missing for answers at these addresses, relative to where the program is loaded. Broken parts of
    /// the modules that are read are removed.
    ///
    /// Returns the broken parts of the modules that own the code at these addresses, in the order of the addresses. Each
    /// part is returned once. If more modules were read, their broken parts are returned when an address in their code
    /// is asked for.
    ///
    /// # Errors
    ///
    /// [`SourceError::Unreadable`] if a range of the file can't be read, and [`SourceError::OutOfMemory`]. The call can
    /// be repeated with the same addresses.
    pub fn read_for(&mut self, addresses: &[u32]) -> Result<Vec<Repair>, SourceError>
        ensures enough { OnOk result (needs_none self.new.known addresses.now ≡ true) }
        ensures front { SameFront self.old.known.records self.new.known.records }
        ensures file { SameFile self.old self.new }
        ensures told { IfOk result (λ repairs.
            IfModules self.old (TellsAt self.old self.new addresses.now repairs.items)) }
        ensures untold { IfErr result (λ error. error ≡ SourceError.Unreadable → KeepsUntold self.old self.new) }
    {
        self.read_owners(addresses)?;
        self.read_rest_for(addresses)?;
        Ok(take_at(self.alloc, &mut self.kept, &self.owners, addresses)?)
    }

    /// Reads everything that is left. Returns the broken parts of the modules that no call returned before.
    ///
    /// # Errors
    ///
    /// Those of [`read_for`](PdbSession::read_for).
    pub fn read_all(&mut self) -> Result<Vec<Repair>, SourceError>
        ensures all { OnOk result (self.new.known ≡ all_read self.new.known.records) }
        ensures front { SameFront self.old.known.records self.new.known.records }
        ensures file { SameFile self.old self.new }
        ensures told { IfOk result (λ repairs. IfModules self.old (TellsAll self.old self.new repairs.items)) }
        ensures untold { IfErr result (λ error. error ≡ SourceError.Unreadable → KeepsUntold self.old self.new) }
    {
        self.read_rest()?;
        Ok(take_all(self.alloc, &mut self.kept)?)
    }

    // Reads everything that is left, unless the records that were read are enough for answers at these addresses.
    fn read_rest_for(&mut self, addresses: &[u32]) -> Result<(), SourceError>
        ensures enough { OnOk result (needs_none self.new.known addresses.now ≡ true) }
        ensures front { SameFront self.old.known.records self.new.known.records }
        ensures file { SameFile self.old self.new }
        ensures untold { KeepsUntold self.old self.new }
    {
        if self.has_enough(addresses) {
            return Ok(());
        }
        self.read_rest()?;
        Ok(())
    }

    // Reads everything that is left.
    fn read_rest(&mut self) -> Result<(), SourceError>
        ensures all { OnOk result (self.new.known ≡ all_read self.new.known.records) }
        ensures front { SameFront self.old.known.records self.new.known.records }
        ensures file { SameFile self.old self.new }
        ensures untold { KeepsUntold self.old self.new }
    {
        let known = &self.known;
        let has_all = known.all;
        if has_all {
            return Ok(());
        }
        let Some(reader) = &mut self.reader else {
            return Ok(());
        };
        let read = reader.read_all(self.alloc, &mut self.known, &mut self.kept);
        self.is_closed = is_closed(&self.known);
        read
    }

    /// Lends the records that were read so far to contexts. They are a part of the file's repaired records.
    ///
    /// # Errors
    ///
    /// [`Error::PdbError`] with the error of the first stream that a context can't do without and that can't be read.
    pub fn data(&self) -> Result<SessionData<'_>, Error>
        ensures answer { IfOk result (λ lent. lent ≡ self.now.known) }
        ensures file { IfOk result (λ lent. IsPartOfFile lent self.now.bytes self.now.file_length) }
        ensures refused { Refuses result (records_refusal self.now.known.records) }
    {
        SessionData::new(self.alloc, &self.known, &self.owners, self.is_closed)
    }

    // Reads the modules that own the code at these addresses, or the rest of the file if the plan says so.
    fn read_owners(&mut self, addresses: &[u32]) -> Result<(), SourceError>
        ensures front { SameFront self.old.known.records self.new.known.records }
        ensures file { SameFile self.old self.new }
        ensures untold { KeepsUntold self.old self.new }
    {
        let wanted = self.lacking_owners(addresses)?;
        let known = &self.known;
        let has_all = known.all;
        if has_all || wanted.is_empty() {
            return Ok(());
        }
        let Some(reader) = &mut self.reader else {
            return Ok(());
        };
        let module_count = reader.module_count();
        if self
            .plan
            .reads_all(wanted.len(), addresses.len(), module_count)
        {
            return self.read_rest();
        }
        let (known, kept) = (&mut self.known, &mut self.kept);
        let read = reader.read_modules(self.alloc, known, kept, &wanted);
        self.is_closed = is_closed(&self.known);
        read
    }

    // The unread modules that own the code at these addresses, in ascending order, each once.
    fn lacking_owners(&self, addresses: &[u32]) -> Result<Vec<usize>, AllocError> {
        let mut wanted = Vec::new(self.alloc);
        for &address in addresses {
            if let Some(owner) = self.owners.owner_at(address)
                && !self.known.is_read(owner)
                && wanted.last() != Some(&owner)
            {
                wanted.push(owner)?;
            }
        }
        wanted.sort_unstable();
        wanted.dedup();
        Ok(wanted)
    }

    // Whether the records that were read are enough for answers at all of these addresses.
    fn has_enough(&self, addresses: &[u32]) -> bool
        ensures { result ≡ needs_none self.now.known addresses.now }
    {
        for &address in addresses {
            if self.needs(address) {
                return false;
            }
        }
        true
    }

    // Whether the answer at an address needs records that weren't read.
    fn needs(&self, address: u32) -> bool
        ensures { result ≡ needs self.now.known address }
    {
        let is_closed = self.is_closed;
        if is_closed { self.lacks(address) } else { true }
    }

    // Whether the module that owns the code at an address isn't read yet.
    fn lacks(&self, address: u32) -> bool
        ensures { result ≡ lacks_owner self.now.known (owners_of self.now.known.records) address }
    {
        self.owners.is_lacking(&self.known, address)
    }
}
