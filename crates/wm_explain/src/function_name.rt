//! The names of a module's functions.

use std::alloc::{AllocError, Global};
use std::fmt;
use wm_ast::{ExportKind, Module};
use wm_module_bytes::section_names;
use wm_phrase::ShortText;
use wm_sites::ModuleCode;

/// How a function is named.
#[derive(Clone, Copy)]
pub(crate) enum FunctionName<'m> {
    /// By an export.
    Exported(&'m str),
    /// By the custom section `name`.
    Named(&'m str),
    /// By its index, since it has no name.
    Index(usize),
}

/// A function in a sentence.
impl fmt::Display for FunctionName<'_> {
    fn fmt<W: fmt::Write>(&self, f: &mut fmt::Formatter<W>) -> fmt::Result {
        let kind = match self {
            FunctionName::Exported(_) => "the exported function ",
            FunctionName::Named(_) => "the function ",
            FunctionName::Index(_) => "",
        };
        write!(f, "{kind}{}", BriefName(*self))
    }
}

/// A function in a row of a table.
#[derive(Clone, Copy)]
pub(crate) struct BriefName<'m>(pub FunctionName<'m>);

impl fmt::Display for BriefName<'_> {
    fn fmt<W: fmt::Write>(&self, f: &mut fmt::Formatter<W>) -> fmt::Result {
        match self.0 {
            FunctionName::Exported(name) | FunctionName::Named(name) => {
                write!(f, "{}", ShortText(name))
            }
            FunctionName::Index(index) => write!(f, "function {index}"),
        }
    }
}

/// The function that an export names.
fn exported_function(module: &Module, name: &str) -> Option<usize> {
    let export = module.export(name)?;
    match export.kind {
        ExportKind::Func => Some(export.index as usize),
        ExportKind::Memory | ExportKind::Global => None,
    }
}

/// The first export of each function that has one, by its index.
fn export_names(alloc: Global, module: &Module) -> Result<Vec<Option<&str>>, AllocError> {
    let mut names = vec![in alloc; None; module.funcs.len()]?;
    for position in 0..module.exports.len() {
        let (Some(export), Some(name)) = (
            module.exports.at(position),
            module.exports.name_at(position),
        ) else {
            break;
        };
        if export.kind != ExportKind::Func {
            continue;
        }
        if let Some(first) = names.get_mut(export.index as usize) {
            *first = first.or(Some(name));
        }
    }
    Ok(names)
}

/// The names of a module's functions, by their indices.
#[derive(Drop)]
pub(crate) struct FunctionNames<'m> {
    module: &'m Module,
    exported: Vec<Option<&'m str>>,
    named: Vec<Option<&'m str>>,
}

impl<'m> FunctionNames<'m> {
    /// The names of a module's functions.
    ///
    /// # Errors
    ///
    /// Only if an allocation fails.
    pub(crate) fn of(alloc: Global, code: ModuleCode<'m>) -> Result<Self, AllocError> {
        let module = code.module.module();
        Ok(FunctionNames {
            module,
            exported: export_names(alloc, module)?,
            named: section_names(alloc, code.bytes, module.funcs.len())?,
        })
    }

    /// The name of a function in a thread that starts with the export `start`: that export, else the function's first
    /// export, else its name in the section `name`, else its index.
    pub(crate) fn name<'a>(&'a self, start: &'a str, function: usize) -> FunctionName<'a> {
        if exported_function(self.module, start) == Some(function) {
            return FunctionName::Exported(start);
        }
        if let Some(name) = self.exported.get(function).copied().flatten() {
            return FunctionName::Exported(name);
        }
        match self.named.get(function).copied().flatten() {
            Some(name) => FunctionName::Named(name),
            None => FunctionName::Index(function),
        }
    }
}
