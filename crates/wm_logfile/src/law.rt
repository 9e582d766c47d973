//! A law about the definitions.
ghost use Rattle.wm_logfile.specs.declared.fault.ReadFault.TheVariants as read_faults;
ghost use Rattle.wm_logfile.specs.Places.{EachFault, HasFaultAt, HasNumberAt};

use crate::fault::DocFault;

/// The path of a document's first fault leads from the document to the value at fault: no path is cut short. It
/// computes nothing.
pub fn fault_paths_lead_to_values()
    // A value of the wrong kind or length, or another word than those of the format.
    ensures shape { EachFault DocFault.BadShape (HasFaultAt read_faults.Shape) }

    // A number out of the range that the format gives it there.
    ensures range { EachFault DocFault.NumberRange (HasFaultAt read_faults.Range) }
    ensures number { EachFault DocFault.NumberRange HasNumberAt }
{}
