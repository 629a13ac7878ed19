//! `RecordsFile`, and the calls that read all records of a program from a records file.

ghost use Rattle.std.specs.Prelude.{◌≡◌, [], map, string_bytes, length, codes, unwrap_or};
ghost use Rattle.serde_json.specs.Data.{null};
ghost use Rattle.serde_json.specs.Find.{get};
ghost use Rattle.pdb_json_records.specs.Members.{member_of};
ghost use Rattle.pdb_json.specs.ModuleFiles.{contents};
ghost use Rattle.pdb_json.specs.ModuleInfoValues.{infos_of};
ghost use Rattle.serde_json.specs.View.{view};
ghost use Rattle.pdb_json_values.specs.RecordFault.{Agrees, AgreesBy};
ghost use Rattle.pdb_json.specs.RecordsFile.{records_in_version, counted, value_of, records_of};
ghost use Rattle.pdb_json.specs.RecordsFile.{records_of_files, wanted_files_of, module_files_of};

use crate::json::json;
use crate::module_file_names::{ModuleFileNames, module_file_names};
use crate::module_info_values::{AllKnown, infos};
use crate::versions::file_version;
use pdb_json_records::shared_records;
use pdb_json_values::{FIRST_VERSION, Reader, RecordFault, inside, object};
use pdb_records::PDB;
use serde_json::Value;
use std::alloc::Global;

// The reader for a file whose version isn't known yet.
fn first_reader(alloc: Global) -> Reader {
    Reader {
        alloc,
        version: FIRST_VERSION,
    }
}

// Takes the value of `module_infos` out of a file, or null if there is none. The rest of the file is freed.
fn module_values(mut file: Value) -> Value
    ensures { view result ≡ unwrap_or (get (codes "module_infos") (view file)) null }
{
    match file.get_mut("module_infos") {
        Some(value) => value.take(),
        None => Value::Null,
    }
}

// Reads the records of each module from a file of the reader's version and from its module files.
#[tactic(auto, unfolding(pdb_json_records::specs::Members::member_of))]
fn module_infos(reader: Reader, files: &[Vec<u8>], file: Value) -> Result<AllKnown, RecordFault>
    ensures { Agrees result
        (member_of (codes "module_infos") (infos_of reader.version (contents files.now)) (view file)) }
{
    let read = infos(reader, files, module_values(file));
    inside(reader.alloc, "module_infos", read)
}

// Reads all records from a file of the reader's version and from its module files.
#[tactic(auto, unfolding(crate::specs::RecordsFile::records_in_version))]
fn file_records(reader: Reader, files: &[Vec<u8>], file: Value) -> Result<PDB, RecordFault>
    ensures { Agrees result
        (records_in_version reader.version (contents files.now) (view file)) }
{
    let mut records = shared_records(reader, &file)?;
    let known = module_infos(reader, files, file)?;
    records.module_infos = known.infos;
    Ok(records)
}

// Reads all records, if as many module files are given as the file names.
fn counted_records(
    reader: Reader,
    names: &[String],
    files: &[Vec<u8>],
    file: Value,
) -> Result<PDB, RecordFault>
    ensures { Agrees result (counted (length names.now) (length files.now)
        (records_in_version reader.version (contents files.now) (view file))) }
{
    if names.len() == files.len() {
        file_records(reader, files, file)
    } else {
        Err(RecordFault::ModuleFiles {
            wanted: names.len(),
            given: files.len(),
        })
    }
}

/// A parsed records file whose records aren't read yet. A caller can ask for its module files, and then for all
/// records, without parsing the text twice.
///
/// ```
/// let text = br#"{"version":2,"sections":null,"address_map":[],"global_symbols":[],
///     "debug_information":{"error":3},"type_information":[],"id_information":[],
///     "string_table":[],"module_infos":[{"file":"a.json"}]}"#;
/// let file = RecordsFile::from_slice(alloc, text)?;
/// assert!(file.module_files()?.join(alloc, ",")?.as_str() == "a.json");
/// let module_file = Vec::from_slice(alloc, br#"{"error":5}"#)?;
/// let records = file.read_records(&[module_file])?;
/// // The records of the first module are an error, 5.
/// assert!(matches!(records.module_infos[0], Err(StreamError(5))));
/// ```
#[derive(Drop)]
pub struct RecordsFile {
    /// The allocator for its records.
    pub alloc: Global,
    /// The parsed JSON value of the whole text.
    pub value: Value,
}

impl RecordsFile {
    /// Parses the text of a records file, without reading its records yet.
    ///
    /// # Errors
    ///
    /// [`RecordFault::NotJson`] if the bytes aren't a JSON text, and [`RecordFault::OutOfMemory`].
    pub fn from_slice(alloc: Global, bytes: &[u8]) -> Result<RecordsFile, RecordFault>
        ensures { AgreesBy (λ file. view file.value) result (value_of bytes.now) }
    {
        match json(alloc, bytes)? {
            Some(value) => Ok(RecordsFile { alloc, value }),
            None => Err(RecordFault::NotJson),
        }
    }

    // Reads the names of the module files.
    #[tactic(auto, unfolding(crate::specs::RecordsFile::wanted_files_of))]
    fn wanted_files(&self) -> Result<ModuleFileNames, RecordFault>
        ensures { Agrees result (wanted_files_of (view self.now.value)) }
    {
        let alloc = self.alloc;
        let file = object(first_reader(alloc), Some(&self.value))?;
        let version = file_version(first_reader(alloc), file)?;
        module_file_names(Reader { alloc, version }, file)
    }

    /// The names of the module files in the file, in the order in which [`RecordsFile::read_records`] takes them. A
    /// name that occurs twice is listed twice.
    ///
    /// # Errors
    ///
    /// Those of [`module_files`] except [`RecordFault::NotJson`].
    pub fn module_files(&self) -> Result<Vec<String>, RecordFault>
        ensures { AgreesBy (λ names. map string_bytes names.items) result (wanted_files_of (view self.now.value)) }
    {
        let wanted = self.wanted_files()?;
        Ok(wanted.names)
    }

    /// Reads all records of a program from the file and from its module files.
    ///
    /// # Errors
    ///
    /// Those of [`read_records_with`] except [`RecordFault::NotJson`].
    #[tactic(auto, unfolding(crate::specs::RecordsFile::records_of))]
    pub fn read_records(self, files: &[Vec<u8>]) -> Result<PDB, RecordFault>
        ensures { Agrees result (records_of (contents files.now) (view self.value)) }
    {
        let alloc = self.alloc;
        let file = object(first_reader(alloc), Some(&self.value))?;
        let version = file_version(first_reader(alloc), file)?;
        let reader = Reader { alloc, version };
        let wanted = module_file_names(reader, file)?;
        counted_records(reader, &wanted.names, files, self.value)
    }
}

/// Reads all records of a program from a records file, which is a JSON text, and from the module files that it names,
/// in the order of [`module_files`].
///
/// Members and elements are read in order, and the first fault is returned: [`RecordFault::NotJson`] if the bytes
/// aren't a JSON text, [`RecordFault::Shape`] if a value is missing or of the wrong kind, and
/// [`RecordFault::NumberOutOfRange`] if a number isn't whole or doesn't fit. The faults of [`module_files`] come before
/// all others, and then [`RecordFault::ModuleFiles`] if the file names another number of module files than was given.
/// [`RecordFault::ModuleNotJson`] has the path of the member `file` that names a file which isn't a JSON text.
/// [`RecordFault::OutOfMemory`] is possible at any time.
///
/// Reading takes time in proportion to the texts. JSON values are freed while reading: those of the shared records
/// before the first module is read, and those of a module, or of its module file, before the next one is.
///
/// ```
/// let text = br#"{"version":2,"sections":null,"address_map":[],"global_symbols":[],
///     "debug_information":{"error":3},"type_information":[],"id_information":[],
///     "string_table":[],"module_infos":[{"file":"a.json"}]}"#;
/// let file = Vec::from_slice(alloc, br#"{"error":5}"#)?;
/// let records = read_records_with(alloc, text, &[file])?;
/// // The records of the first module are an error, 5.
/// assert!(matches!(records.module_infos[0], Err(StreamError(5))));
/// ```
#[tactic(auto, unfolding(crate::specs::RecordsFile::records_of_files))]
pub fn read_records_with(alloc: Global, bytes: &[u8], files: &[Vec<u8>]) -> Result<PDB, RecordFault>
    ensures { Agrees result (records_of_files bytes.now (contents files.now)) }
{
    let file = RecordsFile::from_slice(alloc, bytes)?;
    file.read_records(files)
}

/// Reads all records of a program from a records file that names no module files, as [`read_records_with`] does if no
/// files are given.
///
/// ```
/// let text = br#"{"sections":null,"address_map":[],"global_symbols":[],
///     "debug_information":{"error":3},"type_information":[],"id_information":[],
///     "string_table":[],"module_infos":[]}"#;
/// let records = read_records(alloc, text)?;
/// // The stream of debug information failed with 3.
/// assert!(matches!(records.debug_information, Err(StreamError(3))));
/// ```
pub fn read_records(alloc: Global, bytes: &[u8]) -> Result<PDB, RecordFault>
    ensures { Agrees result (records_of_files bytes.now []) }
{
    read_records_with(alloc, bytes, &[])
}

/// The names of the module files in a records file, in the order in which [`read_records_with`] takes them. A name that
/// occurs twice is listed twice.
///
/// # Errors
///
/// [`RecordFault::NotJson`]; and [`RecordFault::Shape`] for the root, for `version`, for `module_infos` if it isn't an
/// array, and for a `file` that isn't a string. Nothing else of the file is checked, and of a file of the first version
/// nothing after `version`. [`RecordFault::OutOfMemory`] is possible at any time.
#[tactic(auto, unfolding(crate::specs::RecordsFile::module_files_of))]
pub fn module_files(alloc: Global, bytes: &[u8]) -> Result<Vec<String>, RecordFault>
    ensures { AgreesBy (λ names. map string_bytes names.items) result (module_files_of bytes.now) }
{
    let file = RecordsFile::from_slice(alloc, bytes)?;
    file.module_files()
}
