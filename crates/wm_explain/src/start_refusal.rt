//! Why a thread doesn't start.

use std::alloc::{AllocError, Global};
use std::fmt;
use wm_ast::{ExportKind, Module};
use wm_event::ThreadLog;
use wm_machine::StartFault;
use wm_phrase::{Count, JsonText};

/// Why a thread doesn't start.
#[derive(Clone, Copy)]
pub(crate) struct StartSentence<'a> {
    pub name: &'a str,
    /// How many arguments the log has.
    pub args: usize,
    /// How many parameters the function has, if the name is one of a function.
    pub params: Option<usize>,
    pub fault: StartFault,
}

/// How many parameters a function has.
#[derive(Clone, Copy)]
struct ParamsPhrase(Option<usize>);

impl fmt::Display for ParamsPhrase {
    fn fmt<W: fmt::Write>(&self, f: &mut fmt::Formatter<W>) -> fmt::Result {
        match self.0 {
            Some(params) => write!(f, "{}", Count(params as u64, "parameter")),
            None => f.write_str("another number of parameters"),
        }
    }
}

impl fmt::Display for StartSentence<'_> {
    fn fmt<W: fmt::Write>(&self, f: &mut fmt::Formatter<W>) -> fmt::Result {
        let name = JsonText(self.name);
        match self.fault {
            StartFault::NoExport => write!(f, "The module has no export named {name}."),
            StartFault::NotFunction => {
                write!(f, "The module's export {name} is not a function.")
            }
            StartFault::ArgCount => {
                let args = Count(self.args as u64, "argument");
                let params = ParamsPhrase(self.params);
                write!(
                    f,
                    "The log starts the function {name} with {args}. The function has {params}."
                )
            }
            StartFault::ArgRange => write!(
                f,
                "The log starts the function {name} with an argument of 4294967296 or more for a parameter of type i32."
            ),
            StartFault::OutOfMemory => f.write_str("An allocation failed."),
        }
    }
}

/// How many parameters the exported function of this name has.
fn params_of(module: &Module, name: &str) -> Option<usize> {
    let export = module.export(name)?;
    if export.kind != ExportKind::Func {
        return None;
    }
    Some(module.func_type(export.index as usize)?.params.len())
}

/// Why a thread doesn't start.
///
/// # Errors
///
/// Only if an allocation fails.
pub(crate) fn start_reason(
    alloc: Global,
    module: &Module,
    number: usize,
    stated: &ThreadLog,
    fault: StartFault,
) -> Result<String, AllocError> {
    let name = stated.start.name.as_str();
    let sentence = StartSentence {
        name,
        args: stated.start.args.len(),
        params: params_of(module, name),
        fault,
    };
    format!(in alloc; "Thread {number} does not start. {sentence}\n")
}
