//! What a call needs to know about its function.
ghost use Rattle.std.specs.Prelude.{◌≡◌, IfSome, Some, None};
ghost use Rattle.wm_machine.specs.Functions.{callable, called_with};

use wm_ast::{Module, ValType};

/// The parameters of a function and its other locals.
#[derive(Clone, Copy)]
pub struct LocalTypes<'m> {
    pub params: &'m [ValType],
    pub locals: &'m [ValType],
}

/// What a call needs to know about its function; None if the function, its type or its body isn't there.
pub fn callable(module: &Module, func: usize) -> Option<LocalTypes<'_>>
    ensures none { result ≡ None → callable «module».now func ≡ None }
    ensures some { IfSome result (λ f. callable «module».now func ≡ Some (called_with f.params.now f.locals.now «module».now func)) }
{
    let code = module.funcs.get(func)?;
    let ty = module.func_type(func)?;
    let _body = module.block(func, 0)?;
    Some(LocalTypes {
        params: ty.params.as_slice(),
        locals: code.locals.as_slice(),
    })
}
