//! Prints arrays: first the base, found level by level, and then the dimensions.

ghost use Rattle.std.specs.Prelude.{◌≡◌, None, OnOk};
ghost use Rattle.pdb_records.specs.declared.types.TypeData.TheVariants.{Array};
ghost use Rattle.pdb_type_texts.specs.Plans.{OfType, Elements, Later, ◌▸◌, written, met_before};
ghost use Rattle.pdb_type_texts.specs.Progress.{open_in};
ghost use Rattle.pdb_type_texts.specs.Rules.{element};
ghost use Rattle.pdb_type_texts.specs.Wording.{dimensions_text};
ghost use Rattle.pdb_type_texts.specs.PrintInputs.{PrintInputs, formatter_inputs};
ghost use Rattle.pdb_type_printer.specs.Formatters.{IsLater};
ghost use Rattle.pdb_type_printer.specs.PendingPlans.{Advances, Stands};

use crate::type_formatter::TypeFormatter;
use pdb_errors::Error;
use pdb_records::{ArrayType, ModuleProvider, TypeData, TypeIndex};
use pdb_type_texts::print_error::PrintError;
use pdb_type_texts::progress::Progress;
use pdb_type_texts::tasks::Task;
use pdb_type_texts::wording::Wording;
use std::alloc::AllocError;
use std::collections::BTreeSet;

// Adds a level: the element of an array is an array.
fn further_level(
    progress: &mut Progress<'_>,
    mut elements: BTreeSet<u32>,
    mut levels: Vec<u32>,
    index: TypeIndex,
    a: &ArrayType,
) -> Result<(), AllocError>
    ensures { OnOk result ((w : PrintInputs)
        → Stands w 0 (element w (open_in progress.old.steps) elements.keys levels.items index.0 (Array a.now))
        progress.old progress.new) }
{
    elements.insert(index.0)?;
    levels.push(a.first)?;
    progress.push(Task::Elements(elements, levels, a.element_type))
}

impl<'a, P: ModuleProvider> TypeFormatter<'a, P> {
    // Prints the base of an array, whose size is computed, and the dimensions after it.
    fn base<'s>(
        &mut self,
        module_index: usize,
        progress: &mut Progress<'s>,
        levels: Vec<u32>,
        index: TypeIndex,
        type_data: &'s TypeData,
    ) -> Result<(), AllocError>
    where
        'a: 's,
        requires no_failure { progress.old.failure ≡ None }
        ensures monotone { IsLater P.info module_index self.old self.new }
        ensures advances { OnOk result
            (let w = formatter_inputs P.info self.old.type_inputs module_index in
            Advances w (met_before (w.size index.0).met
            (Later (open_in progress.old.steps) (OfType type_data.now)
            ▸ written (dimensions_text levels.items (w.size index.0).size))) 0
            progress.old self.old.failed progress.new self.new.failed) }
    {
        let size = match self
            .type_inputs
            .type_size(&mut self.cache, module_index, index)
        {
            Ok(size) => size,
            Err(_) => return Err(AllocError),
        };
        self.type_inputs.remember(&mut self.cache, size.met)?;
        progress.push2(
            Task::OfType(type_data),
            Task::Written(Wording::Dimensions(levels, size.size)),
        )
    }

    // Continues with the element of an array: one more level, or the base.
    fn element<'s>(
        &mut self,
        module_index: usize,
        progress: &mut Progress<'s>,
        elements: BTreeSet<u32>,
        levels: Vec<u32>,
        index: TypeIndex,
        type_data: &'s TypeData,
    ) -> Result<(), AllocError>
    where
        'a: 's,
        requires no_failure { progress.old.failure ≡ None }
        ensures monotone { IsLater P.info module_index self.old self.new }
        ensures advances { OnOk result
            (let w = formatter_inputs P.info self.old.type_inputs module_index in
            Advances w (element w (open_in progress.old.steps) elements.keys levels.items index.0 type_data.now) 0
            progress.old self.old.failed progress.new self.new.failed) }
    {
        match type_data {
            TypeData::Array(a) => further_level(progress, elements, levels, index, a),
            _ => self.base(module_index, progress, levels, index, type_data),
        }
    }

    // Reads the next element of an array. Fails if it is one of the elements so far, which is circular.
    pub(crate) fn elements<'s>(
        &mut self,
        module_index: usize,
        progress: &mut Progress<'s>,
        elements: BTreeSet<u32>,
        levels: Vec<u32>,
        next: TypeIndex,
    ) -> Result<(), AllocError>
    where
        'a: 's,
        requires no_failure { progress.old.failure ≡ None }
        ensures monotone { IsLater P.info module_index self.old self.new }
        ensures advances { OnOk result
            (Advances (formatter_inputs P.info self.old.type_inputs module_index)
            (Later (open_in progress.old.steps) (Elements elements.keys levels.items next.0)) 1
            progress.old self.old.failed progress.new self.new.failed) }
    {
        if elements.contains(&next.0) {
            progress.fail(PrintError::OfError(Error::CircularTypeDefinition(next.0)));
            return Ok(());
        }
        match self.printed_type(module_index, next) {
            Ok(type_data) => self.element(
                module_index,
                progress,
                elements,
                levels,
                next,
                type_data,
            ),
            Err(read_error) => self.refuse(progress, read_error),
        }
    }
}
