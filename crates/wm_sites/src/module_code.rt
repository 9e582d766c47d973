//! A module with the bytes that spell it.

use wm_valid::ValidModule;

/// A module with the bytes that spell it.
#[derive(Clone, Copy)]
pub struct ModuleCode<'m> {
    pub module: &'m ValidModule,
    pub bytes: &'m [u8],
}
