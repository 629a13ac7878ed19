//! `ReachableTypes`: the types and ids that the functions of modules name, and all that these lead to.

ghost use Rattle.std.specs.Prelude.{◌≡◌};

use crate::module_reads::ModuleRead;
use crate::type_lists::{TypeLists, mark};
use pdb_msf::{Source, SourceError};
use pdb_records::{
    IdData, IdIndex, Item, ModuleInfo, RawString, Symbol, SymbolData, TypeData, TypeIndex,
};
use pdb_tpi::RecordWindow;
use std::alloc::{AllocError, Global};
use std::collections::BTreeSet;

/// A record whose references are still to be followed, by its position: a type, a type's size, or an id.
#[derive(Clone, Copy)]
enum Step {
    Type(usize),
    Size(usize),
    Id(usize),
}

/// Marks for the types and ids that are reachable, by their positions.
#[derive(Drop)]
pub struct ReachableTypes {
    types: Vec<bool>,
    sizes: Vec<bool>,
    ids: Vec<bool>,
    steps: Vec<Step>,
    /// The names of the forward references whose size is wanted. The size is in the definition of the same name.
    names: BTreeSet<Vec<u8>>,
    type_window: RecordWindow,
    id_window: RecordWindow,
}

impl ReachableTypes {
    /// Marks for these lists, with none set.
    pub fn new(alloc: Global, lists: &TypeLists) -> Result<Self, AllocError> {
        let mut reach = ReachableTypes::over_nothing(alloc);
        reach.types = lists.types.unmarked(alloc)?;
        reach.sizes = lists.types.unmarked(alloc)?;
        reach.ids = lists.ids.unmarked(alloc)?;
        Ok(reach)
    }

    /// Marks for empty lists.
    pub fn over_nothing(alloc: Global) -> Self {
        ReachableTypes {
            types: Vec::new(alloc),
            sizes: Vec::new(alloc),
            ids: Vec::new(alloc),
            steps: Vec::new(alloc),
            names: BTreeSet::new(alloc),
            type_window: RecordWindow::of_few(alloc),
            id_window: RecordWindow::of_few(alloc),
        }
    }

    /// A mark for each type, by its position.
    pub fn types(&self) -> &[bool] {
        &self.types
    }

    /// A mark for each type whose size is wanted, by its position.
    pub fn sizes(&self) -> &[bool] {
        &self.sizes
    }

    /// A mark for each id, by its position.
    pub fn ids(&self) -> &[bool] {
        &self.ids
    }

    /// The names of the forward references whose size is wanted.
    pub fn names(&self) -> &BTreeSet<Vec<u8>> {
        &self.names
    }

    /// Marks the types and ids on which the names of these modules' functions depend.
    pub fn add_modules<S: Source>(
        &mut self,
        alloc: Global,
        source: &mut S,
        lists: &TypeLists,
        modules: &[ModuleRead],
    ) -> Result<(), SourceError>
        ensures inputs { S.bytes source.new ≡ S.bytes source.old }
    {
        for read in modules {
            if let Ok(Some(info)) = &read.info {
                self.add_module(lists, info)?;
            }
        }
        self.follow_steps(alloc, source, lists)
    }

    fn add_module(&mut self, lists: &TypeLists, info: &ModuleInfo) -> Result<(), AllocError> {
        for symbol in &info.symbols.items {
            self.add_symbol(lists, symbol)?;
        }
        Ok(())
    }

    fn add_symbol(&mut self, lists: &TypeLists, symbol: &Symbol) -> Result<(), AllocError> {
        match &symbol.content {
            Some(SymbolData::Procedure(procedure)) => self.add_type(lists, procedure.type_index),
            Some(SymbolData::InlineSite(site)) => self.add_id(lists, site.inlinee),
            _ => Ok(()),
        }
    }

    fn add_type(&mut self, lists: &TypeLists, index: TypeIndex) -> Result<(), AllocError> {
        if let Some(position) = lists.types.position_of(index.0)
            && mark(&mut self.types, position)
        {
            self.steps.push(Step::Type(position))?;
        }
        Ok(())
    }

    fn add_size(&mut self, lists: &TypeLists, index: TypeIndex) -> Result<(), AllocError> {
        if let Some(position) = lists.types.position_of(index.0)
            && mark(&mut self.sizes, position)
        {
            self.steps.push(Step::Size(position))?;
        }
        Ok(())
    }

    fn add_id(&mut self, lists: &TypeLists, index: IdIndex) -> Result<(), AllocError> {
        if let Some(position) = lists.ids.position_of(index.0)
            && mark(&mut self.ids, position)
        {
            self.steps.push(Step::Id(position))?;
        }
        Ok(())
    }

    // Follows all pending records. Each type is followed at most twice: once for its text and once for its size.
    fn follow_steps<S: Source>(
        &mut self,
        alloc: Global,
        source: &mut S,
        lists: &TypeLists,
    ) -> Result<(), SourceError>
        ensures inputs { S.bytes source.new ≡ S.bytes source.old }
    {
        for _ in 0..u64::MAX {
            let Some(step) = self.steps.pop() else {
                break;
            };
            if let Err(fault) = self.follow(alloc, source, lists, step) {
                self.steps.push(step)?;
                return Err(fault);
            }
        }
        Ok(())
    }

    fn follow<S: Source>(
        &mut self,
        alloc: Global,
        source: &mut S,
        lists: &TypeLists,
        step: Step,
    ) -> Result<(), SourceError>
        ensures inputs { S.bytes source.new ≡ S.bytes source.old }
    {
        match step {
            Step::Type(position) => {
                let window = &mut self.type_window;
                let item = (lists.types).item_at::<TypeIndex, S>(alloc, source, window, position)?;
                if let Some(data) = content_of(&item) {
                    self.add_types_of(lists, data)?;
                }
            }
            Step::Size(position) => {
                let window = &mut self.type_window;
                let item = (lists.types).item_at::<TypeIndex, S>(alloc, source, window, position)?;
                if let Some(data) = content_of(&item) {
                    self.add_size_of(alloc, lists, data)?;
                }
            }
            Step::Id(position) => {
                let window = &mut self.id_window;
                let item = lists
                    .ids
                    .item_at::<IdIndex, S>(alloc, source, window, position)?;
                if let Some(data) = content_of(&item) {
                    self.add_types_of_id(lists, data)?;
                }
            }
        }
        Ok(())
    }

    // Adds the types that are printed as parts of a type, and the size of an array's elements.
    fn add_types_of(&mut self, lists: &TypeLists, data: &TypeData) -> Result<(), AllocError> {
        match data {
            TypeData::MemberFunction(function) => {
                self.add_type(lists, function.return_type)?;
                self.add_type(lists, function.class_type)?;
                self.add_optional_type(lists, function.this_pointer_type)?;
                self.add_type(lists, function.argument_list)
            }
            TypeData::Procedure(function) => {
                self.add_optional_type(lists, function.return_type)?;
                self.add_type(lists, function.argument_list)
            }
            TypeData::Pointer(pointer) => self.add_type(lists, pointer.underlying_type),
            TypeData::Array(array) => {
                self.add_type(lists, array.element_type)?;
                self.add_size(lists, array.element_type)
            }
            TypeData::Enumeration(enumeration) => self.add_type(lists, enumeration.underlying_type),
            TypeData::Modifier(modifier) => self.add_type(lists, modifier.underlying_type),
            TypeData::ArgumentList(list) => self.add_all_types(lists, &list.arguments),
            _ => Ok(()),
        }
    }

    // Adds the type whose size a type takes over, or the name by which a forward reference's size is found.
    fn add_size_of(
        &mut self,
        alloc: Global,
        lists: &TypeLists,
        data: &TypeData,
    ) -> Result<(), AllocError> {
        match data {
            TypeData::Enumeration(enumeration) => self.add_size(lists, enumeration.underlying_type),
            TypeData::Modifier(modifier) => self.add_size(lists, modifier.underlying_type),
            TypeData::Class(class) if class.forward_reference => {
                self.add_name(alloc, name_of(&class.name, &class.unique_name))
            }
            TypeData::Union(union) if union.forward_reference => {
                self.add_name(alloc, name_of(&union.name, &union.unique_name))
            }
            _ => Ok(()),
        }
    }

    fn add_name(&mut self, alloc: Global, name: &RawString) -> Result<(), AllocError> {
        if !self.names.contains(&name.0) {
            self.names.insert(Vec::from_slice(alloc, &name.0)?)?;
        }
        Ok(())
    }

    // Adds the types and ids that are printed as parts of an id.
    fn add_types_of_id(&mut self, lists: &TypeLists, data: &IdData) -> Result<(), AllocError> {
        match data {
            IdData::MemberFunction(function) => {
                self.add_type(lists, function.parent)?;
                self.add_type(lists, function.function_type)
            }
            IdData::Function(function) => {
                if let Some(scope) = function.scope {
                    self.add_id(lists, scope)?;
                }
                self.add_type(lists, function.function_type)
            }
            IdData::StringList(list) => self.add_all_types(lists, &list.substrings),
            _ => Ok(()),
        }
    }

    fn add_optional_type(
        &mut self,
        lists: &TypeLists,
        index: Option<TypeIndex>,
    ) -> Result<(), AllocError> {
        match index {
            Some(index) => self.add_type(lists, index),
            None => Ok(()),
        }
    }

    fn add_all_types(
        &mut self,
        lists: &TypeLists,
        indices: &[TypeIndex],
    ) -> Result<(), AllocError> {
        for &index in indices {
            self.add_type(lists, index)?;
        }
        Ok(())
    }
}

// The content of a record; `None` if it is missing or can't be read.
fn content_of<I, D>(item: &Option<Item<I, D>>) -> Option<&D> {
    match item {
        Some(
            Item {
                content: Ok(data),
                ..
            },
        ) => Some(data),
        _ => None,
    }
}

// The name by which a class or a union is found: its unique name if it has one.
fn name_of<'n>(name: &'n RawString, unique_name: &'n Option<RawString>) -> &'n RawString {
    match unique_name {
        Some(unique_name) => unique_name,
        None => name,
    }
}
