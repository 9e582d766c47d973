//! A log with a witness whose shape has a fault.

use crate::log::Log;
use crate::shape_fault::ShapeFault;
use crate::witness::Witness;

/// A log and a witness that are not a candidate, with the first fault of their shape.
pub struct Misshapen {
    pub log: Log,
    pub witness: Witness,
    pub fault: ShapeFault,
}

// By hand, since a derived drop is written out wherever such a log goes out of scope.
impl Drop for Misshapen {
    fn drop(self) {
        let Misshapen {
            log: _log,
            witness: _witness,
            fault: _fault,
        } = self;
    }
}
