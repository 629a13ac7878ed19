//! Reads the headers of a program (an EXE or a DLL, PE32 or PE32+), and finds their tables.

ghost use Rattle.std.specs.Prelude.{◌≡◌, ◌≤◌, ◌<◌, ◌+◌, ◌^◌, IfSome};
ghost use Rattle.pe_image.specs.Headers.{coff_header, directories_at, directory_count_at, headers_at, headers_of};
ghost use Rattle.pe_image.specs.Headers.{image_base, optional_form, sections_at};

use crate::numbers_at::{u16_at, u32_at, u64_at};

/// IMAGE_DOS_SIGNATURE, the letters `MZ`.
const IMAGE_DOS_SIGNATURE: u16 = 0x5a4d;

/// IMAGE_NT_SIGNATURE, the letters `PE` and two zeros.
const IMAGE_NT_SIGNATURE: u32 = 0x4550;

/// Where e_lfanew is in the file: the offset of the headers.
const E_LFANEW: usize = 0x3c;

/// The size of the COFF file header in bytes.
const FILE_HEADER: usize = 20;

/// The maximum number of data directories.
const IMAGE_NUMBEROF_DIRECTORY_ENTRIES: u32 = 16;

/// The maximum number of sections of a program that Windows loads.
const MOST_SECTIONS: u16 = 96;

/// PE32 or PE32+.
#[derive(Clone, Copy)]
enum OptionalForm {
    Pe32,
    Pe32Plus,
}

/// A table of the headers: its offset in the file, and the number of its entries.
#[derive(Clone, Copy)]
pub(crate) struct Table {
    pub(crate) at: usize,
    pub(crate) count: usize,
}

/// The fields of a program's headers, and where their tables are.
#[derive(Clone, Copy)]
pub(crate) struct Headers {
    pub(crate) machine: u16,
    pub(crate) time_stamp: u32,
    pub(crate) image_base: u64,
    pub(crate) image_size: u32,
    pub(crate) sections: Table,
    pub(crate) directories: Table,
}

/// Reads the headers of a program; `None` if the file isn't one.
pub(crate) fn headers_of(file: &[u8]) -> Option<Headers>
    ensures answer { result ≡ headers_of file.now }
    ensures sections { IfSome result (λ headers. headers.sections.at < 2 ^ 33) }
    ensures section_count { IfSome result (λ headers. headers.sections.count ≤ 96) }
    ensures directories { IfSome result (λ headers. headers.directories.at < 2 ^ 33) }
    ensures directory_count { IfSome result (λ headers. headers.directories.count ≤ 16) }
{
    headers_at(file, coff_header(file)?)
}

// The offset of the COFF file header.
fn coff_header(file: &[u8]) -> Option<usize>
    ensures answer { result ≡ coff_header file.now }
    ensures near { IfSome result (λ at. at < 2 ^ 32 + 4) }
{
    let magic = u16_at(file, 0)?;
    let at = u32_at(file, E_LFANEW)? as usize;
    let signature = u32_at(file, at)?;
    if magic == IMAGE_DOS_SIGNATURE && signature == IMAGE_NT_SIGNATURE {
        return Some(at + 4);
    }
    None
}

// Reads the headers, whose COFF file header is at the offset `coff`.
fn headers_at(file: &[u8], coff: usize) -> Option<Headers>
    requires { coff < 2 ^ 32 + 4 }
    ensures answer { result ≡ headers_at file.now coff }
    ensures sections { IfSome result (λ headers. headers.sections.at < 2 ^ 33) }
    ensures section_count { IfSome result (λ headers. headers.sections.count ≤ 96) }
    ensures directories { IfSome result (λ headers. headers.directories.at < 2 ^ 33) }
    ensures directory_count { IfSome result (λ headers. headers.directories.count ≤ 16) }
{
    let machine = u16_at(file, coff)?;
    let time_stamp = u32_at(file, coff + 4)?;
    let magic = u16_at(file, coff + FILE_HEADER)?;
    let form = optional_form(magic)?;
    let image_base = image_base(form, file, coff + FILE_HEADER)?;
    let image_size = u32_at(file, coff + 76)?;
    let sections = sections_at(file, coff)?;
    let directories = directories_at(form, file, coff + FILE_HEADER)?;
    Some(Headers {
        machine,
        time_stamp,
        image_base,
        image_size,
        sections,
        directories,
    })
}

// PE32 or PE32+, by the first number of the optional header.
fn optional_form(magic: u16) -> Option<OptionalForm>
    ensures answer { result ≡ optional_form magic }
{
    match magic {
        0x10b => Some(OptionalForm::Pe32),
        0x20b => Some(OptionalForm::Pe32Plus),
        _ => None,
    }
}

// The image base.
fn image_base(form: OptionalForm, file: &[u8], optional: usize) -> Option<u64>
    requires { optional < 2 ^ 33 }
    ensures answer { result ≡ image_base form file.now optional }
{
    match form {
        OptionalForm::Pe32 => {
            let base = u32_at(file, optional + 28)?;
            Some(u64::from(base))
        }
        OptionalForm::Pe32Plus => u64_at(file, optional + 24),
    }
}

// The offset of NumberOfRvaAndSizes in the optional header.
fn directory_count_at(form: OptionalForm) -> usize
    ensures answer { result ≡ directory_count_at form }
    ensures near { result ≤ 108 }
{
    match form {
        OptionalForm::Pe32 => 92,
        OptionalForm::Pe32Plus => 108,
    }
}

// Finds the table of data directories.
fn directories_at(form: OptionalForm, file: &[u8], optional: usize) -> Option<Table>
    requires { optional < 2 ^ 32 + 24 }
    ensures answer { result ≡ directories_at form file.now optional }
    ensures at { IfSome result (λ table. table.at < 2 ^ 33) }
    ensures count { IfSome result (λ table. table.count ≤ 16) }
{
    let at = optional + directory_count_at(form);
    let count = u32_at(file, at)?;
    Some(Table {
        at: at + 4,
        count: count.min(IMAGE_NUMBEROF_DIRECTORY_ENTRIES) as usize,
    })
}

// Finds the table of section headers.
fn sections_at(file: &[u8], coff: usize) -> Option<Table>
    requires { coff < 2 ^ 32 + 4 }
    ensures answer { result ≡ sections_at file.now coff }
    ensures at { IfSome result (λ table. table.at < 2 ^ 33) }
    ensures count { IfSome result (λ table. table.count ≤ 96) }
{
    let count = u16_at(file, coff + 2)?;
    let size = u16_at(file, coff + 16)?;
    if count > MOST_SECTIONS {
        return None;
    }
    Some(Table {
        at: coff + FILE_HEADER + usize::from(size),
        count: usize::from(count),
    })
}
